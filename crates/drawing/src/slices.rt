// The same over a lent buffer: what does not fit is dropped, and each function answers the place behind what it put.
ghost use Rattle.std.specs.Prelude.{◌+◌, ◌*◌, ◌≤◌, ◌<◌, length};
ghost use Rattle.rectangles.specs.Rectangles.{each};
ghost use Rattle.text.specs.Put.{Put};
ghost use Rattle.tile_layout.specs.Limits.{unsigned};
ghost use Rattle.drawing.specs.Template.{marked};
ghost use Rattle.drawing.specs.View.{Drawable, rect_of};
ghost use Rattle.drawing.specs.Picture.{tile_text};
ghost use Rattle.drawing.specs.Refusal.{refusal_text};
ghost use Rattle.drawing.specs.Drawing.{head_text, layout_text, columns_text, rows_text, picture_text, drawing_text};

use crate::{
    Span, View, behind, column, put_above, put_grid, put_left, put_meaning, put_note,
    put_number_at, put_tile, rect_at, row, side_of, view_of,
};
use answers::is_refusal;
use rectangles::tile_rectangles;
use text::Text;
use text::slices::{put_byte, put_word};
use tile_layout::{TileInfo, not_below_0, start_at};

// A template with its # replaced by numbers, from a place of the buffer on.
pub fn put_marked(out: &mut [u8], at: usize, template: &[u8], xs: &[u64]) -> usize
    ensures { Put (length template.now + 19 * length xs.now) out.old at
        (marked template.now xs.now) out.new result }
{
    let mut next = at;
    let mut k = 0;
    for &c in template {
        if c == b'#' {
            let mut number: Text<20> = Text::new();
            put_number_at(&mut number, xs, k);
            next = put_word(out, next, number.as_slice());
            k += 1;
        } else {
            next = put_byte(out, next, c);
        }
    }
    next
}

fn put_head(out: &mut [u8], v: View, right: u64, bottom: u64, title: &[u8]) -> usize
    requires { Drawable v × (right < 2000000000000000000) × (bottom < 2000000000000000000) }
    ensures { Put (600 + 2 * length title.now) out.old 0 (head_text v right bottom title.now) out.new result }
{
    let unit = v.unit;
    let width = (1000 * unit).max(right) + 160 * unit;
    let height = (v.y * u64::from(v.h)).max(bottom) + 240 * unit;
    let first = put_marked(
        out,
        0,
        b"<svg xmlns='http://www.w3.org/2000/svg' viewBox='-# -# # #' font-family='sans-serif'>\n<title>",
        &[80 * unit, 160 * unit, width, height],
    );
    let second = put_word(out, first, title);
    let third = put_marked(
        out,
        second,
        b"</title>\n<rect x='-#' y='-#' width='100%' height='100%' fill='white'/>\n\
          <svg x='-#' y='-#' width='#' height='#' viewBox='0 0 1160 90'><text x='20' y='36' font-size='26'>",
        &[
            80 * unit,
            160 * unit,
            80 * unit,
            160 * unit,
            1160 * unit,
            90 * unit,
        ],
    );
    put_word(out, third, title)
}

// The tiles of the row j, each from a text of its own.
fn put_row(out: &mut [u8], at: usize, v: View, xs: &[u32], cols: usize, j: usize) -> usize
    requires { Drawable v × (cols ≤ 64) × (j < 64) × (4 * (j * cols + cols) ≤ length xs.now) }
    ensures { Put 30720 out.old at
        (each cols λ i. tile_text v i j (j * cols + i) (rect_of xs.now cols i j)) out.new result }
{
    let mut next = at;
    for i in 0..cols {
        let k = j * cols + i;
        let mut tile: Text<480> = Text::new();
        put_tile(&mut tile, v, rect_at(xs, 4 * k), i, j, k);
        next = put_word(out, next, tile.as_slice());
    }
    next
}

// The tiles, and the picture's edge over them.
fn put_layout(out: &mut [u8], at: usize, v: View, xs: &[u32], cols: usize, rows: usize) -> usize
    requires { Drawable v × (cols ≤ 64) × (rows ≤ 64) × (4 * (rows * cols) ≤ length xs.now) }
    ensures { Put 1966400 out.old at (layout_text v cols rows (rect_of xs.now cols)) out.new result }
{
    let mut next = put_marked(
        out,
        at,
        b"<g fill='none' stroke='black' stroke-width='#' text-anchor='middle'>\n",
        &[v.unit],
    );
    for j in 0..rows {
        next = put_row(out, next, v, xs, cols, j);
    }
    put_marked(
        out,
        next,
        b"<rect width='#' height='#' stroke-width='#'/>\n</g>\n",
        &[v.x * u64::from(v.w), v.y * u64::from(v.h), 3 * v.unit],
    )
}

// The columns' starts, and the closing one.
fn put_columns(
    out: &mut [u8],
    at: usize,
    v: View,
    xs: &[u32],
    starts: &[u16; 65],
    cols: usize,
    end: Span,
) -> usize
    requires { Drawable v × (cols ≤ 64) × (4 * cols ≤ length xs.now) }
    ensures { Put 16900 out.old at (columns_text v starts.now cols end (rect_of xs.now cols)) out.new result }
{
    let mut next = at;
    for i in 0..cols {
        let mut start: Text<260> = Text::new();
        put_above(
            &mut start,
            v.unit,
            column(v, rect_at(xs, 4 * i), i),
            start_at(starts, i),
        );
        next = put_word(out, next, start.as_slice());
    }
    let mut last: Text<260> = Text::new();
    put_above(&mut last, v.unit, end, start_at(starts, cols));
    put_word(out, next, last.as_slice())
}

// The rows'.
fn put_rows(
    out: &mut [u8],
    at: usize,
    v: View,
    xs: &[u32],
    starts: &[u16; 65],
    cols: usize,
    rows: usize,
    end: Span,
) -> usize
    requires { Drawable v × (cols ≤ 64) × (rows ≤ 64) × (1 ≤ cols) × (4 * (rows * cols) ≤ length xs.now) }
    ensures { Put 16900 out.old at (rows_text v starts.now rows end (rect_of xs.now cols)) out.new result }
{
    let mut next = at;
    for j in 0..rows {
        let mut start: Text<260> = Text::new();
        put_left(
            &mut start,
            v.unit,
            row(v, rect_at(xs, 4 * (j * cols)), j),
            start_at(starts, j),
        );
        next = put_word(out, next, start.as_slice());
    }
    let mut last: Text<260> = Text::new();
    put_left(&mut last, v.unit, end, start_at(starts, rows));
    put_word(out, next, last.as_slice())
}

fn put_picture(out: &mut [u8], title: &[u8], v: View, side: u32, t: TileInfo, xs: &[u32]) -> usize
    requires { Drawable v × (side ≤ 256) × (1 ≤ t.cols) × (t.cols ≤ 64) × (1 ≤ t.rows) × (t.rows ≤ 64) × (4 * (t.rows * t.cols) ≤ length xs.now) }
    ensures { Put (2014000 + 2 * length title.now) out.old 0
        (picture_text title.now v side t (rect_of xs.now t.cols)) out.new result }
{
    let cols = usize::from(t.cols);
    let rows = usize::from(t.rows);
    let right = behind(
        column(v, rect_at(xs, 4 * (cols - 1)), cols - 1),
        68 * v.unit,
    );
    let bottom = behind(
        row(v, rect_at(xs, 4 * ((rows - 1) * cols)), rows - 1),
        68 * v.unit,
    );
    let head = put_head(out, v, right.at, bottom.at, title);
    let mut front: Text<12600> = Text::new();
    put_note(&mut front, v, cols, rows, side);
    put_grid(&mut front, v, side);
    let grid = put_word(out, head, front.as_slice());
    let layout = put_layout(out, grid, v, xs, cols, rows);
    let above = put_columns(out, layout, v, xs, &t.col_start_sb, cols, right);
    let left = put_rows(out, above, v, xs, &t.row_start_sb, cols, rows, bottom);
    put_word(out, left, b"</svg>\n")
}

// The drawing of a refusal, with its number.
pub fn put_refusal(out: &mut [u8], title: &[u8], n: u32) -> usize
    ensures { Put (500 + 2 * length title.now) out.old 0 (refusal_text title.now n) out.new result }
{
    let first = put_word(
        out,
        0,
        b"<svg xmlns='http://www.w3.org/2000/svg' viewBox='0 0 1160 90' font-family='sans-serif'>\n<title>",
    );
    let second = put_word(out, first, title);
    let third = put_word(
        out,
        second,
        b"</title>\n<rect width='100%' height='100%' fill='white'/>\n<text x='20' y='36' font-size='26'>",
    );
    let fourth = put_word(out, third, title);
    let fifth = put_marked(
        out,
        fourth,
        b"</text>\n<text x='20' y='70' font-size='22'>no #",
        &[u64::from(n)],
    );
    let mut meaning: Text<100> = Text::new();
    put_meaning(&mut meaning, n);
    let sixth = put_word(out, fifth, meaning.as_slice());
    put_word(out, sixth, b"</text>\n</svg>\n")
}

// The drawing of a layout's tiles in a frame of w by h samples, under a title: text without markup.
pub fn put_drawing(out: &mut [u8], title: &[u8], t: TileInfo, sb128: u8, w: i32, h: i32) -> usize
    ensures { Put (2014000 + 2 * length title.now) out.old 0
        (drawing_text title.now t «sb128» (unsigned w) (unsigned h)) out.new result }
{
    let mut numbers = [0u32; 16384];
    let answer = tile_rectangles(t, sb128, w, h, &mut numbers);
    if is_refusal(answer) {
        return put_refusal(out, title, 4);
    }
    let v = view_of(not_below_0(w), not_below_0(h));
    put_picture(out, title, v, side_of(sb128), t, &numbers)
}
