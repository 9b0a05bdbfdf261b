// What the calls over the lent buffers of a layout share: the records they are given, and how an answer is handed back.
#![tactic(auto)]

ghost use Rattle.std.specs.Prelude.{true, false, [], ◌∷◌, ◌≡◌};
ghost use Rattle.answers.specs.Numbers.{is_refusal};
ghost use Rattle.flat.specs.Layout.{buffers, has_room, layout_in};
ghost use Rattle.lent_tiles.specs.Calls.{is_known, frame_given, seq_given, handed_tiles, handed_frame};

use answers::{is_refusal, number};
use flat::{put_tile_info, tile_info_of};
use frame_layout::{FrameHeader, FrameRead, SeqLayout, frame_tiles, frame_type_of, present_of};
use lent::put_place;
use tile_layout::TileRead;

pub fn is_known(frame_type: u8, present: u8) -> bool
    ensures { result ≡ is_known frame_type present }
{
    (frame_type <= 3) & (present <= 2)
}

pub fn frame_given(
    frame_type: u8,
    width: i32,
    height: i32,
    sb128: u8,
    info: &[u8],
    cols: &[u16],
    rows: &[u16],
) -> FrameHeader
    ensures { result ≡ frame_given frame_type width height sb128 (buffers info.now cols.now rows.now) }
{
    FrameHeader {
        frame_type: frame_type_of(frame_type),
        width,
        height,
        sb128,
        tiling: tile_info_of(info, cols, rows),
    }
}

pub fn seq_given(
    sb128: u8,
    max_width: i32,
    max_height: i32,
    level: u8,
    tier: u8,
    present: u8,
    info: &[u8],
    cols: &[u16],
    rows: &[u16],
) -> SeqLayout
    ensures { result ≡ seq_given sb128 max_width max_height level tier present (buffers info.now cols.now rows.now) }
{
    SeqLayout {
        sb128,
        max_width,
        max_height,
        level,
        tier,
        present: present_of(present),
        t: tile_info_of(info, cols, rows),
    }
}

// A layout's answer is handed back: its number, the place, and the layout unless it is refused.
pub fn hand_back_tiles(
    r: TileRead,
    position: &mut usize,
    error: &mut u8,
    info: &mut [u8],
    cols: &mut [u16],
    rows: &mut [u16],
) -> u32
    ensures outcome { let before = buffers info.old cols.old rows.old in
        let after = buffers info.new cols.new rows.new in
        ((result ∷ position.new ∷ error.new ∷ []), after) ≡ handed_tiles r error.old before }
    ensures layout_put { let before = buffers info.old cols.old rows.old in
        let after = buffers info.new cols.new rows.new in
        (has_room before ≡ true → is_refusal r.answer ≡ false → layout_in after ≡ r.info) }
{
    put_place(r.next, &mut *position, &mut *error);
    if is_refusal(r.answer) {
        return number(r.answer);
    }
    put_tile_info(r.info, &mut *info, &mut *cols, &mut *rows);
    0
}

// A frame's answer likewise, with its code.
pub fn hand_back_frame(
    r: FrameRead,
    position: &mut usize,
    error: &mut u8,
    sb128: &mut u8,
    info: &mut [u8],
    cols: &mut [u16],
    rows: &mut [u16],
) -> u32
    ensures outcome { let before = buffers info.old cols.old rows.old in
        let after = buffers info.new cols.new rows.new in
        ((result ∷ position.new ∷ error.new ∷ []), sb128.new, after)
        ≡ handed_frame r error.old sb128.old before }
    ensures layout_put { let before = buffers info.old cols.old rows.old in
        let after = buffers info.new cols.new rows.new in
        (has_room before ≡ true → is_refusal r.answer ≡ false → layout_in after ≡ r.hdr.tiling) }
{
    let n = hand_back_tiles(
        frame_tiles(r),
        &mut *position,
        &mut *error,
        &mut *info,
        &mut *cols,
        &mut *rows,
    );
    if n == 0 {
        *sb128 = r.hdr.sb128;
    }
    n
}
