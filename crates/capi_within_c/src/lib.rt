// The exports of capi_within as a static library: each calls the function there, and promises the same.
#![tactic(auto)]

ghost use Rattle.std.specs.Prelude.{true, ◌&&◌, [], ◌∷◌, ◌≡◌};
ghost use Rattle.flat.specs.Layout.{buffers, has_room, layout_in};
ghost use Rattle.frame_layout.specs.Frame.{frame_tiles, parse_tile_info_frmhdr};
ghost use Rattle.lent.specs.Lent.{place_of};
ghost use Rattle.lent_tiles.specs.Calls.{lent_tile_info, is_known, frame_given, seq_given, lent_frame};
ghost use Rattle.lent_tiles.specs.Left.{tiles_left};
ghost use Rattle.tile_layout.specs.Cleared.{Cleared};
ghost use Rattle.tile_layout.specs.Demand3.{AcceptedLayout};
ghost use Rattle.tile_layout.specs.Layout.{parse_tile_info};
ghost use Rattle.tile_layout.specs.Limits.{args_of};
ghost use Rattle.tile_limit.specs.Promises.{Limited, FreshAccepted};
ghost use Rattle.tile_limit.specs.Within.{wall};
ghost use Rattle.capi_within.specs.Calls.{limit_given, lent_tile_info_within, lent_frame_within};

#[unsafe(no_mangle)]
pub extern "C" fn mubanlig_within_interface_3() -> u32
    ensures { result ≡ 3 }
{
    capi_within::mubanlig_within_interface_3()
}

#[unsafe(no_mangle)]
pub extern "C" fn mubanlig_parse_tile_info_within(
    s: &[u8],
    position: &mut usize,
    error: &mut u8,
    info: &mut [u8],
    col_start_sb: &mut [u16],
    row_start_sb: &mut [u16],
    sbmul: i32,
    sb128: u8,
    seq_sb128: u8,
    w: i32,
    h: i32,
    level: u8,
    tier: u8,
    max_cols: u8,
    max_rows: u8,
) -> u32
    ensures outcome { let before = buffers info.old col_start_sb.old row_start_sb.old in
        let after = buffers info.new col_start_sb.new row_start_sb.new in
        ((result ∷ position.new ∷ error.new ∷ []), after)
        ≡ lent_tile_info_within s.now position.old error.old before (args_of sbmul sb128 seq_sb128 w h level tier) (limit_given max_cols max_rows) }
    ensures info_unchanged { (result ≡ 0 → ⊥) → info.new ≡ info.old }
    ensures col_start_sb_unchanged { (result ≡ 0 → ⊥) → col_start_sb.new ≡ col_start_sb.old }
    ensures row_start_sb_unchanged { (result ≡ 0 → ⊥) → row_start_sb.new ≡ row_start_sb.old }
    ensures limited { let before = buffers info.old col_start_sb.old row_start_sb.old in
        let after = buffers info.new col_start_sb.new row_start_sb.new in
        let on-wall = parse_tile_info s.now (place_of position.old error.old) (layout_in before) (args_of sbmul sb128 seq_sb128 w h level tier) in
        (has_room before ≡ true
        → Limited (limit_given max_cols max_rows) on-wall (tiles_left result after (place_of position.new error.new))) }
    ensures accepted_layout { let after = buffers info.new col_start_sb.new row_start_sb.new in
        (result ≡ 0 → AcceptedLayout s.now (place_of position.old error.old) (args_of sbmul sb128 seq_sb128 w h level tier) (layout_in after)) }
    ensures on_wall { let before = buffers info.old col_start_sb.old row_start_sb.old in
        let after = buffers info.new col_start_sb.new row_start_sb.new in
        (limit_given max_cols max_rows ≡ wall → ((result ∷ position.new ∷ error.new ∷ []), after)
        ≡ lent_tile_info s.now position.old error.old before (args_of sbmul sb128 seq_sb128 w h level tier)) }
    ensures cleared { result ≡ 0 → Cleared (layout_in (buffers info.new col_start_sb.new row_start_sb.new)) }
{
    capi_within::mubanlig_parse_tile_info_within(
        s,
        &mut *position,
        &mut *error,
        &mut *info,
        &mut *col_start_sb,
        &mut *row_start_sb,
        sbmul,
        sb128,
        seq_sb128,
        w,
        h,
        level,
        tier,
        max_cols,
        max_rows,
    )
}

#[unsafe(no_mangle)]
pub extern "C" fn mubanlig_parse_tile_info_frmhdr_within(
    s: &[u8],
    position: &mut usize,
    error: &mut u8,
    frame_type: u8,
    width: i32,
    height: i32,
    sb128: &mut u8,
    info: &mut [u8],
    col_start_sb: &mut [u16],
    row_start_sb: &mut [u16],
    seq_sb128: u8,
    max_width: i32,
    max_height: i32,
    level: u8,
    tier: u8,
    present: u8,
    seq_info: &[u8],
    seq_col_start_sb: &[u16],
    seq_row_start_sb: &[u16],
    max_cols: u8,
    max_rows: u8,
) -> u32
    ensures outcome { let before = buffers info.old col_start_sb.old row_start_sb.old in
        let after = buffers info.new col_start_sb.new row_start_sb.new in
        let seq-before = buffers seq_info.now seq_col_start_sb.now seq_row_start_sb.now in
        let hdr = frame_given frame_type width height sb128.old before in
        let seq = seq_given seq_sb128 max_width max_height level tier present seq-before in
        ((result ∷ position.new ∷ error.new ∷ []), sb128.new, after)
        ≡ lent_frame_within s.now position.old error.old before seq-before (is_known frame_type present) hdr seq (limit_given max_cols max_rows) }
    ensures sb128_unchanged { (result ≡ 0 → ⊥) → sb128.new ≡ sb128.old }
    ensures info_unchanged { (result ≡ 0 → ⊥) → info.new ≡ info.old }
    ensures col_start_sb_unchanged { (result ≡ 0 → ⊥) → col_start_sb.new ≡ col_start_sb.old }
    ensures row_start_sb_unchanged { (result ≡ 0 → ⊥) → row_start_sb.new ≡ row_start_sb.old }
    ensures limited { let before = buffers info.old col_start_sb.old row_start_sb.old in
        let after = buffers info.new col_start_sb.new row_start_sb.new in
        let seq-before = buffers seq_info.now seq_col_start_sb.now seq_row_start_sb.now in
        let hdr = frame_given frame_type width height sb128.old before in
        let seq = seq_given seq_sb128 max_width max_height level tier present seq-before in
        let on-wall = parse_tile_info_frmhdr s.now (place_of position.old error.old) hdr seq in
        (has_room before && has_room seq-before ≡ true → is_known frame_type present ≡ true
        → Limited (limit_given max_cols max_rows) (frame_tiles on-wall) (tiles_left result after (place_of position.new error.new))) }
    ensures fresh_accepted { let before = buffers info.old col_start_sb.old row_start_sb.old in
        let after = buffers info.new col_start_sb.new row_start_sb.new in
        let seq-before = buffers seq_info.now seq_col_start_sb.now seq_row_start_sb.now in
        let hdr = frame_given frame_type width height sb128.old before in
        let seq = seq_given seq_sb128 max_width max_height level tier present seq-before in
        (result ≡ 0 → FreshAccepted s.now (place_of position.old error.old) hdr seq (layout_in after)) }
    ensures on_wall { let before = buffers info.old col_start_sb.old row_start_sb.old in
        let after = buffers info.new col_start_sb.new row_start_sb.new in
        let seq-before = buffers seq_info.now seq_col_start_sb.now seq_row_start_sb.now in
        let hdr = frame_given frame_type width height sb128.old before in
        let seq = seq_given seq_sb128 max_width max_height level tier present seq-before in
        (limit_given max_cols max_rows ≡ wall → ((result ∷ position.new ∷ error.new ∷ []), sb128.new, after)
        ≡ lent_frame s.now position.old error.old before seq-before (is_known frame_type present) hdr seq) }
    ensures cleared { result ≡ 0 → Cleared (layout_in (buffers info.new col_start_sb.new row_start_sb.new)) }
{
    capi_within::mubanlig_parse_tile_info_frmhdr_within(
        s,
        &mut *position,
        &mut *error,
        frame_type,
        width,
        height,
        &mut *sb128,
        &mut *info,
        &mut *col_start_sb,
        &mut *row_start_sb,
        seq_sb128,
        max_width,
        max_height,
        level,
        tier,
        present,
        seq_info,
        seq_col_start_sb,
        seq_row_start_sb,
        max_cols,
        max_rows,
    )
}
