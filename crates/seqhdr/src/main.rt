// Reads a sequence header from standard input, and prints its fields.
#![tactic(auto)]

ghost use Rattle.std.specs.Prelude.{[], ◌∷◌, ◌++◌, ◌≡◌, ◌+◌, ◌≤◌, length};
ghost use Rattle.program.specs.Output.{starts_text};
ghost use Rattle.text.specs.Text.{put, nexts, line};
ghost use Rattle.seqhdr.specs.Fields.{opening_text, size_text, tools_text, filters_text, fields_text};
ghost use Rattle.seqhdr.specs.Fields.{columns_text, rows_text, seq_layout_text, header_text};
ghost use Rattle.seqhdr.specs.Print.{seq_accepted_text, seq_read_text, seqhdr_text};
ghost use Rattle.seqhdr.specs.Request.{is_seq_request, seq_request};

use answers::{Answer, is_refusal, number};
use flat_hdr::put_seq_hdr;
use getbits::Place;
use program::{put_ok, put_refusal, read_full, report_written};
use seq_hdr::{SeqRead, parse_seq_hdr};
use seq_record::{SequenceHeader, no_seq_hdr};
use std::io;
use text::Text;
use tile_layout::TileInfo;

fn is_request(s: &[u8]) -> bool
    ensures { result ≡ is_seq_request s.now }
{
    if s.len() < 1 {
        return false;
    }
    (s.len() <= 65536) & (s[0] <= 1)
}

fn request(s: &[u8]) -> SeqRead
    ensures { result ≡ seq_request s.now }
{
    let start = Place {
        byte: 0,
        used: 0,
        error: false,
    };
    if is_request(s) {
        let strict = s[0] == 1;
        return parse_seq_hdr(&s[1..], start, strict);
    }
    let none = no_seq_hdr();
    SeqRead {
        answer: Answer::WrongArguments,
        hdr: none,
        next: start,
    }
}

// The start, the level, the format, layers and their dependencies.
fn put_opening<const N: usize>(out: &mut Text<N>, xs: &[i64])
    ensures text { out.new ≡ put N out.old (opening_text xs.now) }
    ensures size { length (opening_text xs.now) ≤ 6111 }
{
    out.push_filled(
        b"id #\n\
          profile #\n\
          reduced_still_picture_header #\n\
          level #\n\
          tier #\n\
          layout #\n\
          ss_hor #\n\
          ss_ver #\n\
          hbd #\n\
          lcr_id #\n\
          still_picture #\n\
          max_tlayer_id #\n\
          max_mlayer_id #\n",
        xs,
        0,
    );
    out.push_filled(
        b"tlayer_dependency_present #\n\
          mlayer_dependency_present #\n\
          tlayer_dependencies # # # # # # # #\n\
          mlayer_dependencies # # # # # # # #\n",
        xs,
        23,
    );
    out.push_filled(b"monotonic #\n", xs, 13);
}

// The frame size and the crop window.
fn put_size<const N: usize>(out: &mut Text<N>, xs: &[i64])
    ensures text { out.new ≡ put N out.old (size_text xs.now) }
    ensures size { length (size_text xs.now) ≤ 2541 }
{
    out.push_filled(
        b"max_width #\n\
          max_height #\n",
        xs,
        16,
    );
    out.push_filled(
        b"width_n_bits #\n\
          height_n_bits #\n",
        xs,
        14,
    );
    out.push_filled(
        b"crop.enabled #\n\
          crop.left #\n\
          crop.right #\n\
          crop.top #\n\
          crop.bottom #\n",
        xs,
        18,
    );
}

// Blocks, inter tools, transforms and entropy coding.
fn put_tools<const N: usize>(out: &mut Text<N>, xs: &[i64])
    ensures text { out.new ≡ put N out.old (tools_text xs.now) }
    ensures size { length (tools_text xs.now) ≤ 24549 }
{
    out.push_filled(
        b"sb128 #\n\
          sdp #\n\
          ext_sdp #\n\
          ext_partitions #\n\
          uneven_4way_partitions #\n\
          max_pb_aspect_ratio_log2 #\n\
          segmentation.ext #\n\
          segmentation.info_present #\n\
          segmentation.adaptive #\n\
          segmentation.d.delta_q # # # # # # # # # # # # # # # #\n\
          segmentation.d.delta_q_mask #\n\
          segmentation.d.skip_mask #\n\
          segmentation.d.globalmv_mask #\n\
          intra_dip #\n\
          intra_edge_filter #\n\
          mrls #\n\
          cfl #\n\
          cfl_ds_filter_index #\n\
          mhccp #\n\
          ibp #\n",
        xs,
        41,
    );
    out.push_filled(
        b"motion_modes #\n\
          frame_motion_modes_present #\n\
          six_param_warp_delta #\n\
          masked_compound #\n\
          ref_frame_mvs #\n\
          reduced_ref_frame_mvs_mode #\n\
          order_hint_n_bits #\n\
          refmv_bank #\n\
          drl_reorder #\n\
          explicit_ref_frame_map #\n\
          ref_frames #\n\
          ref_frames_log2 #\n\
          number_of_bits_for_lt_frame_id #\n\
          def_max_drl_bits #\n\
          allow_frame_max_drl_bits #\n\
          def_max_bvp_drl_bits #\n\
          allow_max_bvp_drl_bits #\n\
          num_same_ref_comp #\n\
          tip #\n\
          tip_hole_fill #\n\
          mv_traj #\n\
          bawp #\n\
          cwp #\n\
          imp_msk_bld #\n\
          db_sub_pu #\n\
          tip_explicit_qp #\n\
          opfl_refine #\n\
          refine_mv #\n\
          tip_refine_mv #\n\
          bru #\n\
          adaptive_mvd #\n\
          mvd_sign_derive #\n\
          flex_mvres #\n\
          global_motion #\n\
          short_refresh_frame_flags #\n\
          screen_content_tools #\n\
          force_integer_mv #\n",
        xs,
        76,
    );
    out.push_filled(
        b"fsc #\n\
          idtx_intra #\n\
          ist # #\n\
          chroma_dctonly #\n\
          inter_ddt #\n\
          reduced_tx_part_set #\n\
          cctx #\n\
          tcq #\n\
          parity_hiding #\n\
          avg_cdf #\n\
          avg_cdf_type #\n",
        xs,
        113,
    );
}

// Loop filters, quantisation, and whether a layout is present.
fn put_filters<const N: usize>(out: &mut Text<N>, xs: &[i64])
    ensures text { out.new ≡ put N out.old (filters_text xs.now) }
    ensures size { length (filters_text xs.now) ≤ 6762 }
{
    out.push_filled(
        b"disable_loopfilters_across_tiles #\n\
          cdef #\n\
          gdf #\n\
          gdf_unit_matches_sbsz #\n\
          restoration #\n\
          rst_disable_mask # #\n\
          ccso #\n\
          ccso_unit_matches_sbsz #\n\
          cdef_on_skiptx #\n\
          df_par_bits #\n",
        xs,
        133,
    );
    out.push_filled(
        b"separate_uv_delta_q #\n\
          equal_ac_dc_q #\n\
          base_ydc_dq #\n\
          ydc_dq_enabled #\n\
          base_uvdc_dq #\n\
          uvdc_dq_enabled #\n\
          base_uvac_dq #\n\
          uvac_dq_enabled #\n",
        xs,
        125,
    );
    out.push_filled(b"tiling.present #\n", xs, 144);
}

// All of the header's numbers but the layout and the last.
#[tactic(auto, using(text::proofs::Puts::puts), unfolding(crate::specs::Fields::fields_text))]
fn put_fields<const N: usize>(out: &mut Text<N>, xs: &[i64])
    ensures text { out.new ≡ put N out.old (fields_text xs.now) }
    ensures size { length (fields_text xs.now) ≤ 39963 }
{
    put_opening(out, xs);
    put_size(out, xs);
    put_tools(out, xs);
    put_filters(out, xs);
}

// A name and 65 starts.
#[tactic(auto, using(text::proofs::Puts::puts))]
fn put_starts<const N: usize>(out: &mut Text<N>, name: &[u8], starts: &[u16; 65])
    ensures text { out.new ≡ put N out.old (name.now ++ starts_text starts.now 65) }
    ensures size { length (name.now ++ starts_text starts.now 65) ≤ length name.now + 1366 }
{
    out.push_word(name);
    out.push_row(starts, 65);
}

// A name and a number.
fn put_field<const N: usize>(out: &mut Text<N>, name: &[u8], n: u64)
    ensures text { out.new ≡ put N out.old (line (name.now ++ nexts (n ∷ []))) }
    ensures size { length (line (name.now ++ nexts (n ∷ []))) ≤ length name.now + 22 }
{
    out.push_line(name, &[n]);
}

#[tactic(auto, using(text::proofs::Puts::puts), unfolding(crate::specs::Fields::columns_text, text::specs::Text::word))]
fn put_columns<const N: usize>(out: &mut Text<N>, t: &TileInfo)
    ensures text { out.new ≡ put N out.old (columns_text t.now) }
    ensures size { length (columns_text t.now) ≤ 201 }
{
    put_field(out, b"tiling.t.uniform", u64::from(t.uniform));
    put_field(out, b"tiling.t.min_log2_cols", u64::from(t.min_log2_cols));
    put_field(out, b"tiling.t.max_log2_cols", u64::from(t.max_log2_cols));
    put_field(out, b"tiling.t.log2_cols", u64::from(t.log2_cols));
    put_field(out, b"tiling.t.cols", u64::from(t.cols));
}

#[tactic(auto, using(text::proofs::Puts::puts), unfolding(crate::specs::Fields::rows_text, text::specs::Text::word))]
fn put_rows<const N: usize>(out: &mut Text<N>, t: &TileInfo)
    ensures text { out.new ≡ put N out.old (rows_text t.now) }
    ensures size { length (rows_text t.now) ≤ 163 }
{
    put_field(out, b"tiling.t.min_log2_rows", u64::from(t.min_log2_rows));
    put_field(out, b"tiling.t.max_log2_rows", u64::from(t.max_log2_rows));
    put_field(out, b"tiling.t.log2_rows", u64::from(t.log2_rows));
    put_field(out, b"tiling.t.rows", u64::from(t.rows));
}

#[tactic(auto, using(text::proofs::Puts::puts), unfolding(crate::specs::Fields::seq_layout_text, text::specs::Text::word))]
fn put_layout<const N: usize>(out: &mut Text<N>, t: &TileInfo)
    ensures text { out.new ≡ put N out.old (seq_layout_text t.now) }
    ensures size { length (seq_layout_text t.now) ≤ 3140 }
{
    put_columns(out, t);
    put_rows(out, t);
    put_starts(out, b"tiling.t.col_start_sb ", &t.col_start_sb);
    put_starts(out, b"tiling.t.row_start_sb ", &t.row_start_sb);
}

// The fields in the order of the Rust's declaration.
fn put_header<const N: usize>(out: &mut Text<N>, hdr: SequenceHeader)
    ensures text { out.new ≡ put N out.old (header_text hdr) }
    ensures size { length (header_text hdr) ≤ 43544 }
{
    let mut flat = [0i64; 146];
    put_seq_hdr(hdr, &mut flat);
    put_fields(out, &flat);
    put_layout(out, &hdr.tiling.t);
    out.push_filled(b"film_grain_present #\n", &flat, 145);
}

#[tactic(auto, using(text::proofs::Puts::puts), unfolding(crate::specs::Print::seq_accepted_text))]
fn put_seq_accepted<const N: usize>(out: &mut Text<N>, hdr: SequenceHeader, next: Place)
    ensures text { out.new ≡ put N out.old (seq_accepted_text hdr next) }
    ensures size { length (seq_accepted_text hdr next) ≤ 43589 }
{
    put_ok(out, next);
    put_header(out, hdr);
}

#[tactic(auto, unfolding(crate::specs::Print::seq_read_text))]
fn put_read<const N: usize>(out: &mut Text<N>, r: &SeqRead)
    ensures text { out.new ≡ put N out.old (seq_read_text r.now) }
    ensures size { length (seq_read_text r.now) ≤ 43589 }
{
    if is_refusal(r.answer) {
        put_refusal(out, number(r.answer), r.next);
    } else {
        put_seq_accepted(out, r.hdr, r.next);
    }
}

// From the input's bytes to the output's, in a text that is too large to be handed back by value.
#[tactic(auto, unfolding(crate::specs::Print::seqhdr_text))]
fn seqhdr_text(input: &[u8], out: &mut Text<43589>)
    ensures text { out.new ≡ put 43589 out.old (seqhdr_text input.now) }
    ensures size { length (seqhdr_text input.now) ≤ 43589 }
{
    put_read(out, &request(input));
}

fn main(rt: HostRuntime) -> io::Result<()> {
    let mut input = [0u8; 65537];
    let n = read_full(&mut rt.reader(), &mut input)?;
    let mut out: Text<43589> = Text::new();
    seqhdr_text(&input[..n], &mut out);
    report_written(&rt, rt.write_all(out.as_slice()).is_ok());
    Ok(())
}
