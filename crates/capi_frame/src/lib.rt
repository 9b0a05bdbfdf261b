// The function for Rust and C over a frame's layout: numbers and slices only.
#![tactic(auto)]

ghost use Rattle.std.specs.Prelude.{true, ◌&&◌, [], ◌∷◌, ◌≡◌};
ghost use Rattle.flat.specs.Layout.{buffers, has_room, layout_in};
ghost use Rattle.frame_layout.specs.Frame.{FreshDemand3};
ghost use Rattle.lent.specs.Lent.{place_of};
ghost use Rattle.tile_layout.specs.Cleared.{Cleared};
ghost use Rattle.lent_tiles.specs.Calls.{is_known, frame_given, seq_given, lent_frame};
ghost use Rattle.lent_tiles.specs.Left.{frame_left};

use answers::number;
use flat::has_room;
use frame_hdr::frame_layout_into;
use frame_layout::{frame_type_of, present_of};
use lent::{place_of, put_place, settle_place};
use lent_tiles::is_known;

// The number of the interface.
const INTERFACE: u32 = 3;

#[unsafe(no_mangle)]
pub extern "C" fn mubanlig_frame_interface_3() -> u32
    ensures { result ≡ 3 }
{
    INTERFACE
}

#[unsafe(no_mangle)]
pub extern "C" fn mubanlig_parse_tile_info_frmhdr(
    s: &[u8],
    position: &mut usize,
    error: &mut u8,
    frame_type: u8,
    width: i32,
    height: i32,
    sb128: &mut u8,
    info: &mut [u8],
    col_start_sb: &mut [u16],
    row_start_sb: &mut [u16],
    seq_sb128: u8,
    max_width: i32,
    max_height: i32,
    level: u8,
    tier: u8,
    present: u8,
    seq_info: &[u8],
    seq_col_start_sb: &[u16],
    seq_row_start_sb: &[u16],
) -> u32
    ensures outcome { let before = buffers info.old col_start_sb.old row_start_sb.old in
        let after = buffers info.new col_start_sb.new row_start_sb.new in
        let seq-before = buffers seq_info.now seq_col_start_sb.now seq_row_start_sb.now in
        let hdr = frame_given frame_type width height sb128.old before in
        let seq = seq_given seq_sb128 max_width max_height level tier present seq-before in
        ((result ∷ position.new ∷ error.new ∷ []), sb128.new, after)
        ≡ lent_frame s.now position.old error.old before seq-before (is_known frame_type present) hdr seq }
    ensures sb128_unchanged { (result ≡ 0 → ⊥) → sb128.new ≡ sb128.old }
    ensures info_unchanged { (result ≡ 0 → ⊥) → info.new ≡ info.old }
    ensures col_start_sb_unchanged { (result ≡ 0 → ⊥) → col_start_sb.new ≡ col_start_sb.old }
    ensures row_start_sb_unchanged { (result ≡ 0 → ⊥) → row_start_sb.new ≡ row_start_sb.old }
    ensures frame_layout { let before = buffers info.old col_start_sb.old row_start_sb.old in
        let after = buffers info.new col_start_sb.new row_start_sb.new in
        let seq-before = buffers seq_info.now seq_col_start_sb.now seq_row_start_sb.now in
        let hdr = frame_given frame_type width height sb128.old before in
        let seq = seq_given seq_sb128 max_width max_height level tier present seq-before in
        (has_room before && has_room seq-before ≡ true → is_known frame_type present ≡ true
        → FreshDemand3 s.now (place_of position.old error.old) hdr seq
        (frame_left hdr result sb128.new after (place_of position.new error.new))) }
    ensures cleared { result ≡ 0 → Cleared (layout_in (buffers info.new col_start_sb.new row_start_sb.new)) }
{
    if !has_room(&*info, &*col_start_sb, &*row_start_sb) {
        return 5;
    }
    if !has_room(seq_info, seq_col_start_sb, seq_row_start_sb) {
        return 5;
    }
    if !is_known(frame_type, present) {
        settle_place(s, &mut *position, &mut *error);
        return 4;
    }
    let p = place_of(*position, *error);
    let r = frame_layout_into(
        s,
        p,
        frame_type_of(frame_type),
        width,
        height,
        *sb128,
        &mut *info,
        &mut *col_start_sb,
        &mut *row_start_sb,
        seq_sb128,
        max_width,
        max_height,
        level,
        tier,
        present_of(present),
        seq_info,
        seq_col_start_sb,
        seq_row_start_sb,
    );
    put_place(r.next, &mut *position, &mut *error);
    *sb128 = r.sb128;
    number(r.answer)
}
