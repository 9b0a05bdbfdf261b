// The exports of capi_frame as a static library: each calls the function there, and promises the same.
#![tactic(auto)]

ghost use Rattle.std.specs.Prelude.{true, ◌&&◌, [], ◌∷◌, ◌≡◌};
ghost use Rattle.flat.specs.Layout.{buffers, has_room, layout_in};
ghost use Rattle.frame_layout.specs.Frame.{FreshDemand3};
ghost use Rattle.lent.specs.Lent.{place_of};
ghost use Rattle.tile_layout.specs.Cleared.{Cleared};
ghost use Rattle.lent_tiles.specs.Calls.{is_known, frame_given, seq_given, lent_frame};
ghost use Rattle.lent_tiles.specs.Left.{frame_left};

#[unsafe(no_mangle)]
pub extern "C" fn mubanlig_frame_interface_3() -> u32
    ensures { result ≡ 3 }
{
    capi_frame::mubanlig_frame_interface_3()
}

#[unsafe(no_mangle)]
pub extern "C" fn mubanlig_parse_tile_info_frmhdr(
    s: &[u8],
    position: &mut usize,
    error: &mut u8,
    frame_type: u8,
    width: i32,
    height: i32,
    sb128: &mut u8,
    info: &mut [u8],
    col_start_sb: &mut [u16],
    row_start_sb: &mut [u16],
    seq_sb128: u8,
    max_width: i32,
    max_height: i32,
    level: u8,
    tier: u8,
    present: u8,
    seq_info: &[u8],
    seq_col_start_sb: &[u16],
    seq_row_start_sb: &[u16],
) -> u32
    ensures outcome { let before = buffers info.old col_start_sb.old row_start_sb.old in
        let after = buffers info.new col_start_sb.new row_start_sb.new in
        let seq-before = buffers seq_info.now seq_col_start_sb.now seq_row_start_sb.now in
        let hdr = frame_given frame_type width height sb128.old before in
        let seq = seq_given seq_sb128 max_width max_height level tier present seq-before in
        ((result ∷ position.new ∷ error.new ∷ []), sb128.new, after)
        ≡ lent_frame s.now position.old error.old before seq-before (is_known frame_type present) hdr seq }
    ensures sb128_unchanged { (result ≡ 0 → ⊥) → sb128.new ≡ sb128.old }
    ensures info_unchanged { (result ≡ 0 → ⊥) → info.new ≡ info.old }
    ensures col_start_sb_unchanged { (result ≡ 0 → ⊥) → col_start_sb.new ≡ col_start_sb.old }
    ensures row_start_sb_unchanged { (result ≡ 0 → ⊥) → row_start_sb.new ≡ row_start_sb.old }
    ensures frame_layout { let before = buffers info.old col_start_sb.old row_start_sb.old in
        let after = buffers info.new col_start_sb.new row_start_sb.new in
        let seq-before = buffers seq_info.now seq_col_start_sb.now seq_row_start_sb.now in
        let hdr = frame_given frame_type width height sb128.old before in
        let seq = seq_given seq_sb128 max_width max_height level tier present seq-before in
        (has_room before && has_room seq-before ≡ true → is_known frame_type present ≡ true
        → FreshDemand3 s.now (place_of position.old error.old) hdr seq
        (frame_left hdr result sb128.new after (place_of position.new error.new))) }
    ensures cleared { result ≡ 0 → Cleared (layout_in (buffers info.new col_start_sb.new row_start_sb.new)) }
{
    capi_frame::mubanlig_parse_tile_info_frmhdr(
        s,
        &mut *position,
        &mut *error,
        frame_type,
        width,
        height,
        &mut *sb128,
        &mut *info,
        &mut *col_start_sb,
        &mut *row_start_sb,
        seq_sb128,
        max_width,
        max_height,
        level,
        tier,
        present,
        seq_info,
        seq_col_start_sb,
        seq_row_start_sb,
    )
}
