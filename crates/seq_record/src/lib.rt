// The sequence header's record.
#![tactic(auto)]

ghost use Rattle.std.specs.Prelude.{◌≡◌};
ghost use Rattle.seq_record.specs.Zero.{no_picture, no_blocks, no_motion, no_ref_frames, no_inter, no_residual, no_filters, no_seq_hdr};

use seg_info::no_seg_info;
use seq_blocks::{Blocks, Intra, Partition, SeqSegmentation};
use seq_fields::{AdaptiveBoolean, PixelLayout};
use seq_inter::{Drl, Inter, Motion, Mv, RefFrames, Screen, Tip};
use seq_picture::{CropInfo, Dependencies, Format, FrameSize, Layers, Level, Picture};
use seq_residual::{Entropy, Filters, Quant, Residual, Transform};
use tile_layout::{TileInfo, no_tile_info};

#[derive(Clone, Copy)]
pub struct Start {
    pub id: u8,
    pub profile: u8,
}

#[derive(Clone, Copy)]
pub struct SeqTiling {
    pub present: AdaptiveBoolean,
    pub t: TileInfo,
}

#[derive(Clone, Copy)]
pub struct SequenceHeader {
    pub start: Start,
    pub level: Level,
    pub format: Format,
    pub picture: Picture,
    pub blocks: Blocks,
    pub motion: Motion,
    pub refs: RefFrames,
    pub inter: Inter,
    pub residual: Residual,
    pub filters: Filters,
    pub tiling: SeqTiling,
    pub film_grain_present: bool,
}

fn no_picture() -> Picture
    ensures { result ≡ no_picture }
{
    Picture {
        layers: Layers {
            lcr_id: 0,
            still_picture: false,
            max_tlayer_id: 0,
            max_mlayer_id: 0,
            monotonic: false,
        },
        size: FrameSize {
            width_n_bits: 0,
            height_n_bits: 0,
            max_width: 0,
            max_height: 0,
        },
        crop: CropInfo {
            enabled: false,
            left: 0,
            right: 0,
            top: 0,
            bottom: 0,
        },
        dependencies: Dependencies {
            tlayer_dependency_present: false,
            mlayer_dependency_present: false,
            tlayer_dependencies: [0u8; 8],
            mlayer_dependencies: [0u8; 8],
        },
    }
}

fn no_blocks() -> Blocks
    ensures { result ≡ no_blocks }
{
    let d = no_seg_info();
    Blocks {
        partition: Partition {
            sb128: 0,
            sdp: false,
            ext_sdp: false,
            ext_partitions: false,
            uneven_4way_partitions: false,
            max_pb_aspect_ratio_log2: 0,
        },
        segmentation: SeqSegmentation {
            ext: false,
            info_present: false,
            adaptive: false,
            d,
        },
        intra: Intra {
            intra_dip: false,
            intra_edge_filter: false,
            mrls: false,
            cfl: false,
            cfl_ds_filter_index: 0,
            mhccp: false,
            ibp: false,
        },
    }
}

fn no_motion() -> Motion
    ensures { result ≡ no_motion }
{
    Motion {
        motion_modes: 0,
        frame_motion_modes_present: false,
        six_param_warp_delta: false,
        masked_compound: false,
        ref_frame_mvs: false,
        reduced_ref_frame_mvs_mode: 0,
        order_hint_n_bits: 0,
    }
}

fn no_ref_frames() -> RefFrames
    ensures { result ≡ no_ref_frames }
{
    RefFrames {
        refmv_bank: false,
        drl_reorder: 0,
        explicit_ref_frame_map: false,
        ref_frames: 0,
        ref_frames_log2: 0,
    }
}

fn no_inter() -> Inter
    ensures { result ≡ no_inter }
{
    Inter {
        drl: Drl {
            number_of_bits_for_lt_frame_id: 0,
            def_max_drl_bits: 0,
            allow_frame_max_drl_bits: false,
            def_max_bvp_drl_bits: 0,
            allow_max_bvp_drl_bits: false,
            num_same_ref_comp: 0,
        },
        tip: Tip {
            tip: false,
            tip_hole_fill: false,
            mv_traj: false,
            bawp: false,
            cwp: false,
            imp_msk_bld: false,
            db_sub_pu: false,
            tip_explicit_qp: false,
        },
        mv: Mv {
            opfl_refine: false,
            refine_mv: false,
            tip_refine_mv: false,
            bru: false,
            adaptive_mvd: false,
            mvd_sign_derive: false,
            flex_mvres: false,
            global_motion: false,
            short_refresh_frame_flags: false,
        },
        screen: Screen {
            screen_content_tools: AdaptiveBoolean::Off,
            force_integer_mv: AdaptiveBoolean::Off,
        },
    }
}

fn no_residual() -> Residual
    ensures { result ≡ no_residual }
{
    Residual {
        transform: Transform {
            fsc: false,
            idtx_intra: false,
            ist: [false; 2],
            chroma_dctonly: false,
            inter_ddt: false,
            reduced_tx_part_set: false,
            cctx: false,
        },
        entropy: Entropy {
            tcq: AdaptiveBoolean::Off,
            parity_hiding: false,
            avg_cdf: false,
            avg_cdf_type: 0,
        },
        quant: Quant {
            separate_uv_delta_q: false,
            equal_ac_dc_q: false,
            base_ydc_dq: 0,
            ydc_dq_enabled: false,
            base_uvdc_dq: 0,
            uvdc_dq_enabled: false,
            base_uvac_dq: 0,
            uvac_dq_enabled: false,
        },
    }
}

fn no_filters() -> Filters
    ensures { result ≡ no_filters }
{
    Filters {
        disable_loopfilters_across_tiles: false,
        cdef: false,
        gdf: false,
        gdf_unit_matches_sbsz: false,
        restoration: false,
        rst_disable_mask: [0u8; 2],
        ccso: false,
        ccso_unit_matches_sbsz: false,
        cdef_on_skiptx: AdaptiveBoolean::Off,
        df_par_bits: 0,
    }
}

// Every number 0, every flag unset, I400 and Off.
pub fn no_seq_hdr() -> SequenceHeader
    ensures { result ≡ no_seq_hdr }
{
    let picture = no_picture();
    let blocks = no_blocks();
    let motion = no_motion();
    let refs = no_ref_frames();
    let inter = no_inter();
    let residual = no_residual();
    let filters = no_filters();
    let t = no_tile_info();
    SequenceHeader {
        start: Start { id: 0, profile: 0 },
        level: Level {
            reduced_still_picture_header: false,
            level: 0,
            tier: 0,
        },
        format: Format {
            layout: PixelLayout::I400,
            ss_hor: 0,
            ss_ver: 0,
            hbd: 0,
        },
        picture,
        blocks,
        motion,
        refs,
        inter,
        residual,
        filters,
        tiling: SeqTiling {
            present: AdaptiveBoolean::Off,
            t,
        },
        film_grain_present: false,
    }
}
