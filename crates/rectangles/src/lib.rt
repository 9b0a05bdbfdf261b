// The rectangles of a layout's tiles, cut at the frame's edge, into a lent buffer.
#![tactic(auto)]

ghost use Rattle.std.specs.Prelude.{◌≡◌, true, [], ◌∷◌, ◌++◌, ◌+◌, ◌*◌, ◌<◌, ◌≤◌, length, get_or, drop};
ghost use Rattle.std.proofs.lemmas.List.Edits.{sets};
ghost use Rattle.tile_layout.specs.Limits.{unsigned, size};
ghost use Rattle.rectangles.specs.Rectangles.{rising, is_count, has_rectangles, rectangle_numbers, edge, reach, each, rectangles, tile_rectangles};
ghost use Rattle.rectangles.specs.Promises.{TilesWritten};

use answers::Answer;
use tile_layout::{TileInfo, is_size, not_below_0, start_at};

// A tile along one direction: where it begins, and how far it reaches, in samples.
#[derive(Clone, Copy)]
struct Span {
    begin: u32,
    reach: u32,
}

// The first n starts and the closing one never fall, and are at most 1,024.
fn never_falls(starts: &[u16], n: u8) -> bool
    ensures { result ≡ rising starts.now n }
{
    let mut good = start_at(starts, 0) <= 1024;
    for i in 0..n as usize {
        let start = start_at(starts, i);
        let next = start_at(starts, i + 1);
        good &= (start <= next) & (next <= 1024);
    }
    good
}

// A count is 1 to 64.
fn is_count(n: u8) -> bool
    ensures { result ≡ is_count n }
{
    (1 <= n) & (n <= 64)
}

fn has_rectangles(t: TileInfo, sb128: u8, w: u32, h: u32) -> bool
    ensures { result ≡ has_rectangles t «sb128» w h }
{
    let across = never_falls(&t.col_start_sb, t.cols);
    let down = never_falls(&t.row_start_sb, t.rows);
    is_count(t.cols) & is_count(t.rows) & across & down & (sb128 <= 2) & is_size(w) & is_size(h)
}

fn side_of(sb128: u8) -> u32
    requires { «sb128» ≤ 2 }
    ensures { (result ≡ size «sb128») × (result ≤ 256) }
{
    match sb128 {
        0 => 64,
        1 => 128,
        _ => 256,
    }
}

// Where a start stands, cut at the frame's edge.
fn edge_at(starts: &[u16], side: u32, most: u32, i: usize) -> u32
    requires { (get_or starts.now i 0 ≤ 1024) × (side ≤ 256) }
    ensures { result ≡ edge starts.now side most i }
{
    (u32::from(start_at(starts, i)) * side).min(most)
}

fn span_of(starts: &[u16], side: u32, most: u32, i: usize) -> Span
    requires { (get_or starts.now i 0 ≤ get_or starts.now (i + 1) 0) × (get_or starts.now (i + 1) 0 ≤ 1024) × (side ≤ 256) × (i < 64) }
    ensures { (result.begin ≡ edge starts.now side most i) × (result.reach ≡ reach starts.now side most i) }
{
    let begin = edge_at(starts, side, most, i);
    let end = edge_at(starts, side, most, i + 1);
    Span {
        begin,
        reach: end - begin,
    }
}

fn put_rectangle(out: &mut [u32], at: usize, across: Span, down: Span)
    requires { at + 4 ≤ length out.old }
    ensures { out.new ≡ sets out.old at (across.begin ∷ down.begin ∷ across.reach ∷ down.reach ∷ []) }
{
    out[at] = across.begin;
    out[at + 1] = down.begin;
    out[at + 2] = across.reach;
    out[at + 3] = down.reach;
}

// The tiles of a row, from the left.
fn put_row(out: &mut [u32], at: usize, starts: &[u16], cols: usize, side: u32, w: u32, down: Span)
    requires { (at + 4 * cols ≤ length out.old) × (rising starts.now cols ≡ true) × (cols ≤ 64) × (side ≤ 256) }
    ensures { out.new ≡ sets out.old at
        (each cols λ col. edge starts.now side w col ∷ down.begin ∷ reach starts.now side w col ∷ down.reach ∷ []) }
{
    for col in 0..cols {
        let across = span_of(starts, side, w, col);
        put_rectangle(&mut *out, at + 4 * col, across, down);
    }
}

// All rows, from the top.
fn put_rows(t: TileInfo, sb128: u8, w: u32, h: u32, out: &mut [u32])
    requires { (has_rectangles t «sb128» w h ≡ true) × (rectangle_numbers t ≤ length out.old) }
    ensures { out.new ≡ rectangles t «sb128» w h ++ drop (rectangle_numbers t) out.old }
{
    let cols = t.cols as usize;
    let side = side_of(sb128);
    for row in 0..t.rows as usize {
        let down = span_of(&t.row_start_sb, side, h, row);
        put_row(
            &mut *out,
            4 * cols * row,
            &t.col_start_sb,
            cols,
            side,
            w,
            down,
        );
    }
}

// What a frame, a limit or a sequence header reads fresh is such a layout: `FreshCovers` of the crate covering.
pub fn tile_rectangles(t: TileInfo, sb128: u8, w: i32, h: i32, out: &mut [u32]) -> Answer
    ensures out_after { (result, out.new) ≡ tile_rectangles t «sb128» (unsigned w) (unsigned h) out.old }
    ensures tiles_written { TilesWritten t «sb128» (unsigned w) (unsigned h) result out.new }
{
    let width = not_below_0(w);
    let height = not_below_0(h);
    if !has_rectangles(t, sb128, width, height) {
        return Answer::WrongArguments;
    }
    if out.len() < 4 * (t.cols as usize * t.rows as usize) {
        return Answer::ShortBuffer;
    }
    put_rows(t, sb128, width, height, &mut *out);
    Answer::Accepted
}
