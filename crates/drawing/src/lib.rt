// A layout as an SVG picture: the picture's edge, its superblocks, the tiles with their numbers and sizes, and the starts
// along the sides.
#![tactic(auto)]

ghost use Rattle.std.specs.Prelude.{◌≡◌, [], ◌∷◌, ◌+◌, ◌*◌, ◌≤◌, ◌<◌, min, max, eqb, ltb, length, get_or, take, drop};
ghost use Rattle.getbits.specs.Chain.{pick};
ghost use Rattle.rectangles.specs.Rectangles.{each};
ghost use Rattle.text.specs.Text.{put, decimal, mark, word};
ghost use Rattle.tile_layout.specs.Limits.{unsigned, size};
ghost use Rattle.drawing.specs.Template.{marked};
ghost use Rattle.drawing.specs.View.{Drawable, Drawn, view_of, span_of, rect_of, column_of, row_of, middle_of, behind_of};
ghost use Rattle.drawing.specs.View.{stretch as View·stretch};
ghost use Rattle.drawing.specs.Picture.{label_width, label_text, tile_text, is_line, lines_text, above_text, left_text};
ghost use Rattle.drawing.specs.Refusal.{meaning_text, refusal_text};
ghost use Rattle.drawing.specs.Drawing.{head_text, note_text, grid_text, layout_text, columns_text, rows_text, picture_text, drawing_text};

use answers::is_refusal;
use rectangles::tile_rectangles;
use text::Text;
use tile_layout::{TileInfo, not_below_0, start_at};

pub mod slices;

// How a picture is drawn: its size in samples, what a sample is across and down, and a thousandth of the drawing's longer side.
#[derive(Clone, Copy)]
struct View {
    w: u32,
    h: u32,
    x: u64,
    y: u64,
    unit: u64,
}

// A tile along one direction of the drawing.
#[derive(Clone, Copy)]
struct Span {
    at: u64,
    size: u64,
}

// The k-th number, and 0 where there is none.
fn put_number_at<const N: usize>(out: &mut Text<N>, xs: &[u64], k: usize)
    ensures text { out.new ≡ put N out.old (decimal (get_or xs.now k 0)) }
    ensures size { length (decimal (get_or xs.now k 0)) ≤ 1 + pick (ltb k (length xs.now)) 19 0 }
{
    if k < xs.len() {
        return out.push_number(xs[k]);
    }
    out.push(b'0');
}

// A template with its # replaced by numbers.
pub fn put_marked<const N: usize>(out: &mut Text<N>, template: &[u8], xs: &[u64])
    ensures text { out.new ≡ put N out.old (marked template.now xs.now) }
    ensures size { length (marked template.now xs.now) ≤ length template.now + 19 * length xs.now }
{
    let mut k = 0;
    for &c in template {
        if c == b'#' {
            put_number_at(out, xs, k);
            k += 1;
        } else {
            out.push(c);
        }
    }
}

// By what a sample along a side is multiplied, so that no side is drawn shorter than an eighth of the other.
fn stretch(side: u32, other: u32) -> u64
    requires { (side ≤ 65536) × (other ≤ 65536) }
    ensures { (result ≡ View·stretch side other) × (result ≤ 65536) }
{
    let a = u64::from(side);
    let b = u64::from(other);
    if 8 * b < a {
        return 8 * b;
    }
    if 8 * a < b {
        return b;
    }
    1
}

fn view_of(w: u32, h: u32) -> View
    requires { (w ≤ 65536) × (h ≤ 65536) }
    ensures { (result ≡ view_of w h) × Drawable result }
{
    let across = stretch(w, h);
    let down = stretch(h, w);
    let width = u64::from(w) * across;
    let height = u64::from(h) * down;
    let unit = width.max(height);
    View {
        w,
        h,
        x: 1000 * across,
        y: 1000 * down,
        unit,
    }
}

// Tile i along a side of `most` samples. One without samples stands behind the side's end.
fn span_of(scale: u64, unit: u64, most: u32, i: usize, begin: u32, reach: u32) -> Span
    requires { (scale ≤ 65536000) × (unit ≤ 4294967296) × (i < 64) }
    ensures { (result ≡ span_of scale unit most i begin reach) × Drawn result }
{
    if reach == 0 {
        return Span {
            at: scale * u64::from(most) + 30 * unit * i as u64,
            size: 30 * unit,
        };
    }
    Span {
        at: scale * u64::from(begin),
        size: scale * u64::from(reach),
    }
}

fn column(v: View, rect: [u32; 4], i: usize) -> Span
    requires { Drawable v × (i < 64) }
    ensures { (result ≡ column_of v i rect) × Drawn result }
{
    span_of(v.x, v.unit, v.w, i, rect[0], rect[2])
}

fn row(v: View, rect: [u32; 4], j: usize) -> Span
    requires { Drawable v × (j < 64) }
    ensures { (result ≡ row_of v j rect) × Drawn result }
{
    span_of(v.y, v.unit, v.h, j, rect[1], rect[3])
}

// The middle of a span, at most n long.
fn middle(s: Span, n: u64) -> Span
    requires { Drawn s }
    ensures { (result ≡ middle_of s n) × (result.size < 1000000000000000000) }
{
    let size = s.size.min(n);
    Span {
        at: s.at + (s.size - size) / 2,
        size,
    }
}

// What follows a span, n long.
fn behind(s: Span, n: u64) -> Span
    requires { Drawn s }
    ensures { (result ≡ behind_of s n) × (result.at < 2000000000000000000) }
{
    Span {
        at: s.at + s.size,
        size: n,
    }
}

// How wide the two lines of a label are.
fn label_width(w: u32, h: u32) -> u64
    ensures { result ≡ label_width w h }
{
    if (w < 100) & (h < 100) {
        return 38;
    }
    if (w < 1000) & (h < 1000) {
        return 48;
    }
    72
}

// A tile's number and size: in one line where there is little height, in a turned one where there is little width, else in two.
fn put_label<const N: usize>(out: &mut Text<N>, across: Span, down: Span, k: u64, w: u32, h: u32)
    requires { (across.size < 1000000000000000000) × (down.size < 1000000000000000000) }
    ensures text { out.new ≡ put N out.old (label_text across down k w h) }
    ensures size { length (label_text across down k w h) ≤ 360 }
{
    let width = u64::from(w);
    let height = u64::from(h);
    if 4 * down.size <= across.size {
        return put_marked(
            out,
            b"<svg x='#' y='#' width='#' height='#' viewBox='0 0 96 12' fill='black' stroke='none'>\
              <text x='48' y='9.5' font-size='10'>#: #x#</text></svg>\n",
            &[across.at, down.at, across.size, down.size, k, width, height],
        );
    }
    if 3 * across.size <= down.size {
        return put_marked(
            out,
            b"<svg x='#' y='#' width='#' height='#' viewBox='0 0 12 96' fill='black' stroke='none'>\
              <text x='-48' y='9.5' font-size='10' transform='rotate(-90)'>#: #x#</text></svg>\n",
            &[across.at, down.at, across.size, down.size, k, width, height],
        );
    }
    put_marked(
        out,
        b"<svg x='#' y='#' width='#' height='#' viewBox='0 0 # 28' fill='black' stroke='none'>\
          <text x='50%' y='13' font-size='13'>#</text><text x='50%' y='25' font-size='10'>#x#</text></svg>\n",
        &[
            across.at,
            down.at,
            across.size,
            down.size,
            label_width(w, h),
            k,
            width,
            height,
        ],
    );
}

// The tile of a column i and a row j, the k-th of all.
fn put_tile<const N: usize>(
    out: &mut Text<N>,
    v: View,
    rect: [u32; 4],
    i: usize,
    j: usize,
    k: usize,
)
    requires { Drawable v × (i < 64) × (j < 64) }
    ensures text { out.new ≡ put N out.old (tile_text v i j k rect) }
    ensures size { length (tile_text v i j k rect) ≤ 480 }
{
    let across = column(v, rect, i);
    let down = row(v, rect, j);
    put_marked(
        out,
        b"<rect x='#' y='#' width='#' height='#'/>",
        &[across.at, down.at, across.size, down.size],
    );
    let most = 160 * v.unit;
    put_label(
        out,
        middle(across, most),
        middle(down, most),
        k as u64,
        rect[2],
        rect[3],
    );
}

// A tile's left, top, width and height.
fn rect_at(xs: &[u32], at: usize) -> [u32; 4]
    requires { at + 4 ≤ length xs.now }
    ensures { result ≡ take 4 (drop at xs.now) }
{
    [xs[at], xs[at + 1], xs[at + 2], xs[at + 3]]
}

// The tiles of the row j.
fn put_row<const N: usize>(out: &mut Text<N>, v: View, xs: &[u32], cols: usize, j: usize)
    requires { Drawable v × (cols ≤ 64) × (j < 64) × (4 * (j * cols + cols) ≤ length xs.now) }
    ensures text { out.new ≡ put N out.old (each cols λ i. tile_text v i j (j * cols + i) (rect_of xs.now cols i j)) }
    ensures size { length (each cols λ i. tile_text v i j (j * cols + i) (rect_of xs.now cols i j)) ≤ 30720 }
{
    for i in 0..cols {
        let k = j * cols + i;
        put_tile(out, v, rect_at(xs, 4 * k), i, j, k);
    }
}

// All tiles.
fn put_tiles<const N: usize>(out: &mut Text<N>, v: View, xs: &[u32], cols: usize, rows: usize)
    requires { Drawable v × (cols ≤ 64) × (rows ≤ 64) × (4 * (rows * cols) ≤ length xs.now) }
    ensures text { out.new ≡ put N out.old (each rows λ j. each cols λ i. tile_text v i j (j * cols + i) (rect_of xs.now cols i j)) }
    ensures size { length (each rows λ j. each cols λ i. tile_text v i j (j * cols + i) (rect_of xs.now cols i j)) ≤ 1966080 }
{
    for j in 0..rows {
        put_row(out, v, xs, cols, j);
    }
}

// The tiles, and the picture's edge over them.
fn put_layout<const N: usize>(out: &mut Text<N>, v: View, xs: &[u32], cols: usize, rows: usize)
    requires { Drawable v × (cols ≤ 64) × (rows ≤ 64) × (4 * (rows * cols) ≤ length xs.now) }
    ensures text { out.new ≡ put N out.old (layout_text v cols rows (rect_of xs.now cols)) }
    ensures size { length (layout_text v cols rows (rect_of xs.now cols)) ≤ 1966400 }
{
    put_marked(
        out,
        b"<g fill='none' stroke='black' stroke-width='#' text-anchor='middle'>\n",
        &[v.unit],
    );
    put_tiles(out, v, xs, cols, rows);
    put_marked(
        out,
        b"<rect width='#' height='#' stroke-width='#'/>\n</g>\n",
        &[v.x * u64::from(v.w), v.y * u64::from(v.h), 3 * v.unit],
    );
}

// A line of the grid, if it is to be seen.
fn put_line_if<const N: usize>(out: &mut Text<N>, cond: bool, line: [u64; 4])
    ensures text { out.new ≡ put N out.old (pick cond (marked (word "<path d='M# #h#v#'/>\n") line) []) }
    ensures size { length (pick cond (marked (word "<path d='M# #h#v#'/>\n") line) []) ≤ 97 }
{
    if cond {
        put_marked(out, b"<path d='M# #h#v#'/>\n", &line);
    }
}

// Does a line of the grid stand n samples into a side?
fn is_line(n: u32, side: u32, most: u32) -> bool
    requires { side ≤ 256 }
    ensures { result ≡ is_line n side most }
{
    (n < most) & (most <= 64 * side)
}

// The lines behind superblock i.
fn put_lines<const N: usize>(out: &mut Text<N>, v: View, side: u32, i: u32)
    requires { Drawable v × (side ≤ 256) × (i < 63) }
    ensures text { out.new ≡ put N out.old (lines_text v side i) }
    ensures size { length (lines_text v side i) ≤ 194 }
{
    let n = side * (i + 1);
    let w = v.x * u64::from(v.w);
    let h = v.y * u64::from(v.h);
    put_line_if(out, is_line(n, side, v.w), [v.x * u64::from(n), 0, 0, h]);
    put_line_if(out, is_line(n, side, v.h), [0, v.y * u64::from(n), w, 0]);
}

fn put_all_lines<const N: usize>(out: &mut Text<N>, v: View, side: u32)
    requires { Drawable v × (side ≤ 256) }
    ensures text { out.new ≡ put N out.old (each 63 λ i. lines_text v side i) }
    ensures size { length (each 63 λ i. lines_text v side i) ≤ 12222 }
{
    for i in 0..63 {
        put_lines(out, v, side, i);
    }
}

fn put_grid<const N: usize>(out: &mut Text<N>, v: View, side: u32)
    requires { Drawable v × (side ≤ 256) }
    ensures text { out.new ≡ put N out.old (grid_text v side) }
    ensures size { length (grid_text v side) ≤ 12300 }
{
    put_marked(
        out,
        b"<g fill='none' stroke='lightgray' stroke-width='#'>\n",
        &[v.unit],
    );
    put_all_lines(out, v, side);
    out.push_word(b"</g>\n");
}

// A column's start above it, turned where the column is narrow.
fn put_above<const N: usize>(out: &mut Text<N>, unit: u64, s: Span, start: u16)
    requires { unit ≤ 4294967296 }
    ensures text { out.new ≡ put N out.old (above_text unit s start) }
    ensures size { length (above_text unit s start) ≤ 260 }
{
    if s.size < 68 * unit {
        return put_marked(
            out,
            b"<svg x='#' y='-#' width='#' height='#' viewBox='0 0 12 32' preserveAspectRatio='xMinYMax'>\
              <text x='-30' y='10' font-size='12' transform='rotate(-90)'>#</text></svg>\n",
            &[s.at, 68 * unit, s.size, 60 * unit, u64::from(start)],
        );
    }
    put_marked(
        out,
        b"<svg x='#' y='-#' width='#' height='#' viewBox='0 0 40 20' preserveAspectRatio='xMinYMax'>\
          <text y='16' font-size='16'>#</text></svg>\n",
        &[s.at, 42 * unit, s.size, 34 * unit, u64::from(start)],
    );
}

// A row's start to its left.
fn put_left<const N: usize>(out: &mut Text<N>, unit: u64, s: Span, start: u16)
    requires { unit ≤ 4294967296 }
    ensures text { out.new ≡ put N out.old (left_text unit s start) }
    ensures size { length (left_text unit s start) ≤ 260 }
{
    put_marked(
        out,
        b"<svg x='-#' y='#' width='#' height='#' viewBox='0 0 40 20' preserveAspectRatio='xMaxYMin'>\
          <text x='40' y='15' font-size='16' text-anchor='end'>#</text></svg>\n",
        &[78 * unit, s.at, 68 * unit, s.size, u64::from(start)],
    );
}

// All column starts but the closing one.
fn put_column_starts<const N: usize>(
    out: &mut Text<N>,
    v: View,
    xs: &[u32],
    starts: &[u16; 65],
    cols: usize,
)
    requires { Drawable v × (cols ≤ 64) × (4 * cols ≤ length xs.now) }
    ensures text { out.new ≡ put N out.old (each cols λ i. above_text v.unit (column_of v i (take 4 (drop (4 * i) xs.now))) (get_or starts.now i 0)) }
    ensures size { length (each cols λ i. above_text v.unit (column_of v i (take 4 (drop (4 * i) xs.now))) (get_or starts.now i 0)) ≤ 16640 }
{
    for i in 0..cols {
        put_above(
            out,
            v.unit,
            column(v, rect_at(xs, 4 * i), i),
            start_at(starts, i),
        );
    }
}

// All row starts but the closing one.
fn put_row_starts<const N: usize>(
    out: &mut Text<N>,
    v: View,
    xs: &[u32],
    starts: &[u16; 65],
    cols: usize,
    rows: usize,
)
    requires { Drawable v × (cols ≤ 64) × (rows ≤ 64) × (1 ≤ cols) × (4 * (rows * cols) ≤ length xs.now) }
    ensures text { out.new ≡ put N out.old (each rows λ j. left_text v.unit (row_of v j (take 4 (drop (4 * (j * cols)) xs.now))) (get_or starts.now j 0)) }
    ensures size { length (each rows λ j. left_text v.unit (row_of v j (take 4 (drop (4 * (j * cols)) xs.now))) (get_or starts.now j 0)) ≤ 16640 }
{
    for j in 0..rows {
        put_left(
            out,
            v.unit,
            row(v, rect_at(xs, 4 * (j * cols)), j),
            start_at(starts, j),
        );
    }
}

fn put_columns<const N: usize>(
    out: &mut Text<N>,
    v: View,
    xs: &[u32],
    starts: &[u16; 65],
    cols: usize,
    end: Span,
)
    requires { Drawable v × (cols ≤ 64) × (4 * cols ≤ length xs.now) }
    ensures text { out.new ≡ put N out.old (columns_text v starts.now cols end (rect_of xs.now cols)) }
    ensures size { length (columns_text v starts.now cols end (rect_of xs.now cols)) ≤ 16900 }
{
    put_column_starts(out, v, xs, starts, cols);
    put_above(out, v.unit, end, start_at(starts, cols));
}

fn put_rows<const N: usize>(
    out: &mut Text<N>,
    v: View,
    xs: &[u32],
    starts: &[u16; 65],
    cols: usize,
    rows: usize,
    end: Span,
)
    requires { Drawable v × (cols ≤ 64) × (rows ≤ 64) × (1 ≤ cols) × (4 * (rows * cols) ≤ length xs.now) }
    ensures text { out.new ≡ put N out.old (rows_text v starts.now rows end (rect_of xs.now cols)) }
    ensures size { length (rows_text v starts.now rows end (rect_of xs.now cols)) ≤ 16900 }
{
    put_row_starts(out, v, xs, starts, cols, rows);
    put_left(out, v.unit, end, start_at(starts, rows));
}

fn put_head<const N: usize>(out: &mut Text<N>, v: View, right: u64, bottom: u64, title: &[u8])
    requires { Drawable v × (right < 2000000000000000000) × (bottom < 2000000000000000000) }
    ensures text { out.new ≡ put N out.old (head_text v right bottom title.now) }
    ensures size { length (head_text v right bottom title.now) ≤ 600 + 2 * length title.now }
{
    let unit = v.unit;
    let width = (1000 * unit).max(right) + 160 * unit;
    let height = (v.y * u64::from(v.h)).max(bottom) + 240 * unit;
    put_marked(
        out,
        b"<svg xmlns='http://www.w3.org/2000/svg' viewBox='-# -# # #' font-family='sans-serif'>\n<title>",
        &[80 * unit, 160 * unit, width, height],
    );
    out.push_word(title);
    put_marked(
        out,
        b"</title>\n<rect x='-#' y='-#' width='100%' height='100%' fill='white'/>\n\
          <svg x='-#' y='-#' width='#' height='#' viewBox='0 0 1160 90'><text x='20' y='36' font-size='26'>",
        &[
            80 * unit,
            160 * unit,
            80 * unit,
            160 * unit,
            1160 * unit,
            90 * unit,
        ],
    );
    out.push_word(title);
}

fn put_note<const N: usize>(out: &mut Text<N>, v: View, cols: usize, rows: usize, side: u32)
    ensures text { out.new ≡ put N out.old (note_text v cols rows side) }
    ensures size { length (note_text v cols rows side) ≤ 300 }
{
    put_marked(
        out,
        b"</text>\n<text x='20' y='70' font-size='20' fill='dimgray'>\
          # x # tiles, each with its number, width x height in samples; starts in superblocks of #",
        &[cols as u64, rows as u64, u64::from(side)],
    );
    if v.x == v.y {
        return out.push_word(b"</text></svg>\n");
    }
    out.push_word(b"; not to scale</text></svg>\n");
}

fn put_picture<const N: usize>(
    out: &mut Text<N>,
    title: &[u8],
    v: View,
    side: u32,
    t: TileInfo,
    xs: &[u32],
)
    requires { Drawable v × (side ≤ 256) × (1 ≤ t.cols) × (t.cols ≤ 64) × (1 ≤ t.rows) × (t.rows ≤ 64) × (4 * (t.rows * t.cols) ≤ length xs.now) }
    ensures text { out.new ≡ put N out.old (picture_text title.now v side t (rect_of xs.now t.cols)) }
    ensures size { length (picture_text title.now v side t (rect_of xs.now t.cols)) ≤ 2014000 + 2 * length title.now }
{
    let cols = usize::from(t.cols);
    let rows = usize::from(t.rows);
    let right = behind(
        column(v, rect_at(xs, 4 * (cols - 1)), cols - 1),
        68 * v.unit,
    );
    let bottom = behind(
        row(v, rect_at(xs, 4 * ((rows - 1) * cols)), rows - 1),
        68 * v.unit,
    );
    put_head(out, v, right.at, bottom.at, title);
    put_note(out, v, cols, rows, side);
    put_grid(out, v, side);
    put_layout(out, v, xs, cols, rows);
    put_columns(out, v, xs, &t.col_start_sb, cols, right);
    put_rows(out, v, xs, &t.row_start_sb, cols, rows, bottom);
    out.push_word(b"</svg>\n");
}

// What the number of a refusal means.
#[tactic(auto, using(text::proofs::Puts::puts, std::proofs::lemmas::Grind::common_steps), unfolding(crate::specs::Refusal::meaning_text))]
fn put_meaning<const N: usize>(out: &mut Text<N>, n: u32)
    ensures text { out.new ≡ put N out.old (meaning_text n) }
    ensures size { length (meaning_text n) ≤ 100 }
{
    match n {
        1 => out.push_word(
            b": a sequence header's profile, layout, bit depth, reference frames, or the reader's error",
        ),
        2 => out.push_word(b": 64 columns, or then 64 rows, leave superblocks over"),
        4 => out.push_word(b": an argument outside the domain, or a layout that has no rectangles"),
        _ => {}
    }
}

// The drawing of a refusal, with its number.
pub fn put_refusal<const N: usize>(out: &mut Text<N>, title: &[u8], n: u32)
    ensures text { out.new ≡ put N out.old (refusal_text title.now n) }
    ensures size { length (refusal_text title.now n) ≤ 500 + 2 * length title.now }
{
    out.push_word(
        b"<svg xmlns='http://www.w3.org/2000/svg' viewBox='0 0 1160 90' font-family='sans-serif'>\n<title>",
    );
    out.push_word(title);
    out.push_word(
        b"</title>\n<rect width='100%' height='100%' fill='white'/>\n<text x='20' y='36' font-size='26'>",
    );
    out.push_word(title);
    put_marked(
        out,
        b"</text>\n<text x='20' y='70' font-size='22'>no #",
        &[u64::from(n)],
    );
    put_meaning(out, n);
    out.push_word(b"</text>\n</svg>\n");
}

fn side_of(sb128: u8) -> u32
    requires { «sb128» ≤ 2 }
    ensures { (result ≡ size «sb128») × (result ≤ 256) }
{
    match sb128 {
        0 => 64,
        1 => 128,
        _ => 256,
    }
}

// The drawing of a layout's tiles in a frame of w by h samples, under a title: text without markup.
pub fn put_drawing<const N: usize>(
    out: &mut Text<N>,
    title: &[u8],
    t: TileInfo,
    sb128: u8,
    w: i32,
    h: i32,
)
    ensures text { out.new ≡ put N out.old (drawing_text title.now t «sb128» (unsigned w) (unsigned h)) }
    ensures size { length (drawing_text title.now t «sb128» (unsigned w) (unsigned h)) ≤ 2014000 + 2 * length title.now }
{
    let mut numbers = [0u32; 16384];
    let answer = tile_rectangles(t, sb128, w, h, &mut numbers);
    if is_refusal(answer) {
        return put_refusal(out, title, 4);
    }
    let v = view_of(not_below_0(w), not_below_0(h));
    put_picture(out, title, v, side_of(sb128), t, &numbers);
}
