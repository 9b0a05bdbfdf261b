// A sequence header as flat numbers: each record in the order of its declaration. Its layout stands in buffers of its own.
// A part is put where it stands in a buffer for all 146 numbers; a shorter buffer stays as it was.
#![tactic(auto)]

ghost use Rattle.std.specs.Prelude.{◌++◌, ◌≡◌, ◌+◌, ◌≤◌, pos, length, replicate};
ghost use Rattle.flat.specs.Layout.{over_front};
ghost use Rattle.flat.specs.Rows.{PutAt};
ghost use Rattle.flat.specs.Segments.{flat_masks};
ghost use Rattle.flat_hdr.specs.Header.{as_signed, layout_number, adaptive_number, flat_last, flat_seq_hdr};
ghost use Rattle.flat_hdr.specs.Rows.{PutIn};
ghost use Rattle.flat_hdr.specs.Header.{flat_start, flat_level, flat_format, flat_layers, flat_size, flat_crop, flat_dependencies, flat_picture};
ghost use Rattle.flat_hdr.specs.Header.{flat_partition, flat_segmentation, flat_intra, flat_blocks, flat_motion, flat_ref_frames};
ghost use Rattle.flat_hdr.specs.Header.{flat_drl, flat_tip, flat_mv, flat_screen, flat_inter, flat_transform, flat_entropy, flat_quant, flat_residual, flat_filters};

use flat::put_row;
use seg_info::SegmentationDataSet;
use seq_blocks::{Blocks, Intra, Partition, SeqSegmentation};
use seq_fields::{AdaptiveBoolean, PixelLayout};
use seq_inter::{Drl, Inter, Motion, Mv, RefFrames, Screen, Tip};
use seq_picture::{CropInfo, Dependencies, Format, FrameSize, Layers, Level, Picture};
use seq_record::{SequenceHeader, Start};
use seq_residual::{Entropy, Filters, Quant, Residual, Transform};

// Bytes go into the buffer from `at` on; the place behind them.
fn put_bytes(out: &mut [i64], at: usize, xs: &[u8]) -> usize
    requires { at + length xs.now ≤ length out.old }
    ensures { PutAt out.old at (as_signed xs.now) (length xs.now) out.new result }
{
    put_row(&mut *out, at, xs)
}

fn layout_number(layout: PixelLayout) -> u8
    ensures { result ≡ layout_number layout }
{
    match layout {
        PixelLayout::I400 => 0,
        PixelLayout::I420 => 1,
        PixelLayout::I422 => 2,
        PixelLayout::I444 => 3,
    }
}

fn adaptive_number(a: AdaptiveBoolean) -> u8
    ensures { result ≡ adaptive_number a }
{
    match a {
        AdaptiveBoolean::Off => 0,
        AdaptiveBoolean::On => 1,
        AdaptiveBoolean::Adaptive => 2,
    }
}

pub fn put_head(out: &mut [i64], start: Start, level: Level, format: Format)
    ensures { PutIn out.old 0 (flat_start start ++ flat_level level ++ flat_format format) 9 out.new }
{
    if out.len() < 146 {
        return;
    }
    let xs: [u8; 9] = [
        start.id,
        start.profile,
        level.reduced_still_picture_header as u8,
        level.level,
        level.tier,
        layout_number(format.layout),
        format.ss_hor,
        format.ss_ver,
        format.hbd,
    ];
    put_bytes(&mut *out, 0, &xs);
}

fn put_layers(out: &mut [i64], at: usize, l: Layers) -> usize
    requires { at + 5 ≤ length out.old }
    ensures { PutAt out.old at (flat_layers l) 5 out.new result }
{
    let xs: [u8; 5] = [
        l.lcr_id,
        l.still_picture as u8,
        l.max_tlayer_id,
        l.max_mlayer_id,
        l.monotonic as u8,
    ];
    put_bytes(&mut *out, at, &xs)
}

fn put_size(out: &mut [i64], at: usize, s: FrameSize) -> usize
    requires { at + 4 ≤ length out.old }
    ensures { PutAt out.old at (flat_size s) 4 out.new result }
{
    let bits: [u8; 2] = [s.width_n_bits, s.height_n_bits];
    let at = put_bytes(&mut *out, at, &bits);
    put_row(&mut *out, at, &[s.max_width, s.max_height])
}

fn put_crop(out: &mut [i64], at: usize, c: CropInfo) -> usize
    requires { at + 5 ≤ length out.old }
    ensures { PutAt out.old at (flat_crop c) 5 out.new result }
{
    let xs: [u32; 5] = [c.enabled as u32, c.left, c.right, c.top, c.bottom];
    put_row(&mut *out, at, &xs)
}

fn put_dependencies(out: &mut [i64], at: usize, d: Dependencies) -> usize
    requires { at + 18 ≤ length out.old }
    ensures { PutAt out.old at (flat_dependencies d) 18 out.new result }
{
    let present: [u8; 2] = [
        d.tlayer_dependency_present as u8,
        d.mlayer_dependency_present as u8,
    ];
    let at = put_bytes(&mut *out, at, &present);
    let at = put_bytes(&mut *out, at, &d.tlayer_dependencies);
    put_bytes(&mut *out, at, &d.mlayer_dependencies)
}

pub fn put_picture(out: &mut [i64], p: Picture)
    ensures { PutIn out.old 9 (flat_picture p) 32 out.new }
{
    if out.len() < 146 {
        return;
    }
    let at = put_layers(&mut *out, 9, p.layers);
    let at = put_size(&mut *out, at, p.size);
    let at = put_crop(&mut *out, at, p.crop);
    put_dependencies(&mut *out, at, p.dependencies);
}

fn put_partition(out: &mut [i64], at: usize, p: Partition) -> usize
    requires { at + 6 ≤ length out.old }
    ensures { PutAt out.old at (flat_partition p) 6 out.new result }
{
    let xs: [u8; 6] = [
        p.sb128,
        p.sdp as u8,
        p.ext_sdp as u8,
        p.ext_partitions as u8,
        p.uneven_4way_partitions as u8,
        p.max_pb_aspect_ratio_log2,
    ];
    put_bytes(&mut *out, at, &xs)
}

fn put_masks(out: &mut [i64], at: usize, d: SegmentationDataSet) -> usize
    requires { at + 3 ≤ length out.old }
    ensures { PutAt out.old at (as_signed (flat_masks d)) 3 out.new result }
{
    let xs: [u16; 3] = [d.delta_q_mask, d.skip_mask, d.globalmv_mask];
    put_row(&mut *out, at, &xs)
}

fn put_segmentation(out: &mut [i64], at: usize, s: SeqSegmentation) -> usize
    requires { at + 22 ≤ length out.old }
    ensures { PutAt out.old at (flat_segmentation s) 22 out.new result }
{
    let flags: [u8; 3] = [s.ext as u8, s.info_present as u8, s.adaptive as u8];
    let at = put_bytes(&mut *out, at, &flags);
    let at = put_row(&mut *out, at, &s.d.delta_q);
    put_masks(&mut *out, at, s.d)
}

fn put_intra(out: &mut [i64], at: usize, i: Intra) -> usize
    requires { at + 7 ≤ length out.old }
    ensures { PutAt out.old at (flat_intra i) 7 out.new result }
{
    let xs: [u8; 7] = [
        i.intra_dip as u8,
        i.intra_edge_filter as u8,
        i.mrls as u8,
        i.cfl as u8,
        i.cfl_ds_filter_index,
        i.mhccp as u8,
        i.ibp as u8,
    ];
    put_bytes(&mut *out, at, &xs)
}

pub fn put_blocks(out: &mut [i64], b: Blocks)
    ensures { PutIn out.old 41 (flat_blocks b) 35 out.new }
{
    if out.len() < 146 {
        return;
    }
    let at = put_partition(&mut *out, 41, b.partition);
    let at = put_segmentation(&mut *out, at, b.segmentation);
    put_intra(&mut *out, at, b.intra);
}

pub fn put_motion(out: &mut [i64], motion: Motion, refs: RefFrames)
    ensures { PutIn out.old 76 (flat_motion motion ++ flat_ref_frames refs) 12 out.new }
{
    if out.len() < 146 {
        return;
    }
    let xs: [u8; 12] = [
        motion.motion_modes,
        motion.frame_motion_modes_present as u8,
        motion.six_param_warp_delta as u8,
        motion.masked_compound as u8,
        motion.ref_frame_mvs as u8,
        motion.reduced_ref_frame_mvs_mode,
        motion.order_hint_n_bits,
        refs.refmv_bank as u8,
        refs.drl_reorder,
        refs.explicit_ref_frame_map as u8,
        refs.ref_frames,
        refs.ref_frames_log2,
    ];
    put_bytes(&mut *out, 76, &xs);
}

fn put_drl(out: &mut [i64], at: usize, d: Drl) -> usize
    requires { at + 6 ≤ length out.old }
    ensures { PutAt out.old at (flat_drl d) 6 out.new result }
{
    let xs: [u8; 6] = [
        d.number_of_bits_for_lt_frame_id,
        d.def_max_drl_bits,
        d.allow_frame_max_drl_bits as u8,
        d.def_max_bvp_drl_bits,
        d.allow_max_bvp_drl_bits as u8,
        d.num_same_ref_comp,
    ];
    put_bytes(&mut *out, at, &xs)
}

fn put_tip(out: &mut [i64], at: usize, t: Tip) -> usize
    requires { at + 8 ≤ length out.old }
    ensures { PutAt out.old at (flat_tip t) 8 out.new result }
{
    let xs: [u8; 8] = [
        t.tip as u8,
        t.tip_hole_fill as u8,
        t.mv_traj as u8,
        t.bawp as u8,
        t.cwp as u8,
        t.imp_msk_bld as u8,
        t.db_sub_pu as u8,
        t.tip_explicit_qp as u8,
    ];
    put_bytes(&mut *out, at, &xs)
}

fn put_mv(out: &mut [i64], at: usize, m: Mv) -> usize
    requires { at + 9 ≤ length out.old }
    ensures { PutAt out.old at (flat_mv m) 9 out.new result }
{
    let xs: [u8; 9] = [
        m.opfl_refine as u8,
        m.refine_mv as u8,
        m.tip_refine_mv as u8,
        m.bru as u8,
        m.adaptive_mvd as u8,
        m.mvd_sign_derive as u8,
        m.flex_mvres as u8,
        m.global_motion as u8,
        m.short_refresh_frame_flags as u8,
    ];
    put_bytes(&mut *out, at, &xs)
}

fn put_screen(out: &mut [i64], at: usize, s: Screen) -> usize
    requires { at + 2 ≤ length out.old }
    ensures { PutAt out.old at (flat_screen s) 2 out.new result }
{
    let xs: [u8; 2] = [
        adaptive_number(s.screen_content_tools),
        adaptive_number(s.force_integer_mv),
    ];
    put_bytes(&mut *out, at, &xs)
}

pub fn put_inter(out: &mut [i64], i: Inter)
    ensures { PutIn out.old 88 (flat_inter i) 25 out.new }
{
    if out.len() < 146 {
        return;
    }
    let at = put_drl(&mut *out, 88, i.drl);
    let at = put_tip(&mut *out, at, i.tip);
    let at = put_mv(&mut *out, at, i.mv);
    put_screen(&mut *out, at, i.screen);
}

fn put_transform(out: &mut [i64], at: usize, t: Transform) -> usize
    requires { at + 8 ≤ length out.old }
    ensures { PutAt out.old at (flat_transform t) 8 out.new result }
{
    let xs: [u8; 8] = [
        t.fsc as u8,
        t.idtx_intra as u8,
        t.ist[0] as u8,
        t.ist[1] as u8,
        t.chroma_dctonly as u8,
        t.inter_ddt as u8,
        t.reduced_tx_part_set as u8,
        t.cctx as u8,
    ];
    put_bytes(&mut *out, at, &xs)
}

fn put_entropy(out: &mut [i64], at: usize, e: Entropy) -> usize
    requires { at + 4 ≤ length out.old }
    ensures { PutAt out.old at (flat_entropy e) 4 out.new result }
{
    let xs: [u8; 4] = [
        adaptive_number(e.tcq),
        e.parity_hiding as u8,
        e.avg_cdf as u8,
        e.avg_cdf_type,
    ];
    put_bytes(&mut *out, at, &xs)
}

fn put_quant(out: &mut [i64], at: usize, q: Quant) -> usize
    requires { at + 8 ≤ length out.old }
    ensures { PutAt out.old at (flat_quant q) 8 out.new result }
{
    let first: [u8; 2] = [q.separate_uv_delta_q as u8, q.equal_ac_dc_q as u8];
    let rest: [u8; 5] = [
        q.ydc_dq_enabled as u8,
        q.base_uvdc_dq,
        q.uvdc_dq_enabled as u8,
        q.base_uvac_dq,
        q.uvac_dq_enabled as u8,
    ];
    let at = put_bytes(&mut *out, at, &first);
    let at = put_row(&mut *out, at, &[q.base_ydc_dq]);
    put_bytes(&mut *out, at, &rest)
}

pub fn put_residual(out: &mut [i64], x: Residual)
    ensures { PutIn out.old 113 (flat_residual x) 20 out.new }
{
    if out.len() < 146 {
        return;
    }
    let at = put_transform(&mut *out, 113, x.transform);
    let at = put_entropy(&mut *out, at, x.entropy);
    put_quant(&mut *out, at, x.quant);
}

pub fn put_filters(out: &mut [i64], f: Filters)
    ensures { PutIn out.old 133 (flat_filters f) 11 out.new }
{
    if out.len() < 146 {
        return;
    }
    let xs: [u8; 11] = [
        f.disable_loopfilters_across_tiles as u8,
        f.cdef as u8,
        f.gdf as u8,
        f.gdf_unit_matches_sbsz as u8,
        f.restoration as u8,
        f.rst_disable_mask[0],
        f.rst_disable_mask[1],
        f.ccso as u8,
        f.ccso_unit_matches_sbsz as u8,
        adaptive_number(f.cdef_on_skiptx),
        f.df_par_bits,
    ];
    put_bytes(&mut *out, 133, &xs);
}

pub fn put_last(out: &mut [i64], present: AdaptiveBoolean, film_grain_present: bool)
    ensures { PutIn out.old 144 (flat_last present film_grain_present) 2 out.new }
{
    if out.len() < 146 {
        return;
    }
    let xs: [u8; 2] = [adaptive_number(present), film_grain_present as u8];
    put_bytes(&mut *out, 144, &xs);
}

pub fn put_seq_hdr(hdr: SequenceHeader, out: &mut [i64])
    ensures { out.new ≡ over_front 146 (flat_seq_hdr hdr) out.old }
{
    put_head(&mut *out, hdr.start, hdr.level, hdr.format);
    put_picture(&mut *out, hdr.picture);
    put_blocks(&mut *out, hdr.blocks);
    put_motion(&mut *out, hdr.motion, hdr.refs);
    put_inter(&mut *out, hdr.inter);
    put_residual(&mut *out, hdr.residual);
    put_filters(&mut *out, hdr.filters);
    put_last(&mut *out, hdr.tiling.present, hdr.film_grain_present);
}

// The numbers of the zero record.
pub fn put_zeros(out: &mut [i64])
    ensures { out.new ≡ over_front 146 (replicate 146 (pos 0)) out.old }
{
    if out.len() < 146 {
        return;
    }
    out[..146].fill(0);
}
