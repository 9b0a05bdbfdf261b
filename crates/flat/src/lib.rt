// Records in lent buffers: a tile layout and the features of the segments.
#![tactic(auto)]

ghost use Rattle.std.specs.Prelude.{true, map, [], ◌∷◌, ◌≡◌, ◌+◌, ◌≤◌, length, take, replicate};
ghost use Rattle.flat.specs.Layout.{over_front, buffers, has_room, put_layout, starts_in, layout_in};
ghost use Rattle.seq_fields.specs.Fields.{bit_of};
ghost use Rattle.flat.specs.Rows.{PutAt};
ghost use Rattle.flat.specs.Segments.{flat_masks, seg_info_of};

use lent::is_set;
use seg_info::{SegmentationDataSet, no_seg_info};
use tile_layout::{TileInfo, no_tile_info};

// Numbers over the front of a buffer; one that has fewer stays as it was.
fn put_front<T: Copy, const N: usize>(out: &mut [T], xs: &[T; N])
    ensures { out.new ≡ over_front N xs.now out.old }
{
    if N <= out.len() {
        out[..N].copy_from_slice(xs);
    }
}

// A row of numbers from `at` on, each as a wider type has it; the place behind them.
pub fn put_row<T: Copy, U: Copy + From<T>>(out: &mut [U], at: usize, xs: &[T]) -> usize
    requires { at + length xs.now ≤ length out.old }
    ensures next { result ≡ at + length xs.now }
    ensures row { (f : T → U) → ((x : T) (y : U) → U.from_gives x y → y ≡ f x)
        → PutAt out.old at (map f xs.now) (length xs.now) out.new result }
{
    for (i, x) in xs.iter().enumerate() {
        out[at + i] = U::from(*x);
    }
    at + xs.len()
}

// The first numbers of a buffer that has as many.
fn front<T: Copy, const N: usize>(xs: &[T]) -> [T; N]
    requires { N ≤ length xs.now }
    ensures { result ≡ take N xs.now }
{
    let Some(first) = xs.first_chunk() else {
        unreachable!()
    };
    *first
}

// Have the buffers of a layout room for it?
pub fn has_room(info: &[u8], cols: &[u16], rows: &[u16]) -> bool
    ensures { result ≡ has_room (buffers info.now cols.now rows.now) }
{
    (9 <= info.len()) & ((65 <= cols.len()) & (65 <= rows.len()))
}

// The nine bytes of a layout: the flag and the eight numbers.
pub fn put_layout_bytes(
    info: &mut [u8],
    uniform: bool,
    min_log2_cols: u8,
    max_log2_cols: u8,
    log2_cols: u8,
    cols: u8,
    min_log2_rows: u8,
    max_log2_rows: u8,
    log2_rows: u8,
    rows: u8,
)
    ensures { info.new ≡ over_front 9 (bit_of uniform ∷ min_log2_cols ∷ max_log2_cols ∷ log2_cols ∷ cols
        ∷ min_log2_rows ∷ max_log2_rows ∷ log2_rows ∷ rows ∷ []) info.old }
{
    put_front(
        &mut *info,
        &[
            uniform as u8,
            min_log2_cols,
            max_log2_cols,
            log2_cols,
            cols,
            min_log2_rows,
            max_log2_rows,
            log2_rows,
            rows,
        ],
    );
}

pub fn put_starts(out: &mut [u16], starts: &[u16; 65])
    ensures { out.new ≡ over_front 65 starts.now out.old }
{
    put_front(&mut *out, starts);
}

pub fn clear_starts(out: &mut [u16])
    ensures { out.new ≡ over_front 65 (replicate 65 0) out.old }
{
    put_starts(&mut *out, &[0; 65]);
}

#[tactic(auto, unfolding(crate::specs::Layout::put_layout))]
pub fn put_tile_info(t: TileInfo, info: &mut [u8], cols: &mut [u16], rows: &mut [u16])
    ensures is_put { buffers info.new cols.new rows.new
        ≡ put_layout t (buffers info.old cols.old rows.old) }
    ensures reads_back { has_room (buffers info.old cols.old rows.old) ≡ true
        → layout_in (buffers info.new cols.new rows.new) ≡ t }
{
    if has_room(&*info, &*cols, &*rows) {
        put_layout_bytes(
            &mut *info,
            t.uniform,
            t.min_log2_cols,
            t.max_log2_cols,
            t.log2_cols,
            t.cols,
            t.min_log2_rows,
            t.max_log2_rows,
            t.log2_rows,
            t.rows,
        );
        put_starts(&mut *cols, &t.col_start_sb);
        put_starts(&mut *rows, &t.row_start_sb);
    }
}

// The starts in a buffer that has room; else zeros.
pub fn starts_in(xs: &[u16]) -> [u16; 65]
    ensures { result ≡ starts_in xs.now }
{
    if xs.len() < 65 {
        return [0; 65];
    }
    front(xs)
}

// The layout in buffers that have room.
#[tactic(auto, unfolding(crate::specs::Layout::layout_in))]
fn layout_in(info: &[u8], cols: &[u16], rows: &[u16]) -> TileInfo
    requires { (9 ≤ length info.now) × (65 ≤ length cols.now) × (65 ≤ length rows.now) }
    ensures { result ≡ layout_in (buffers info.now cols.now rows.now) }
{
    TileInfo {
        uniform: is_set(info[0]),
        min_log2_cols: info[1],
        max_log2_cols: info[2],
        log2_cols: info[3],
        cols: info[4],
        min_log2_rows: info[5],
        max_log2_rows: info[6],
        log2_rows: info[7],
        rows: info[8],
        col_start_sb: front(cols),
        row_start_sb: front(rows),
    }
}

#[tactic(auto, unfolding(crate::specs::Layout::layout_in))]
pub fn tile_info_of(info: &[u8], cols: &[u16], rows: &[u16]) -> TileInfo
    ensures { result ≡ layout_in (buffers info.now cols.now rows.now) }
{
    if has_room(info, cols, rows) {
        return layout_in(info, cols, rows);
    }
    no_tile_info()
}

pub fn put_delta_q(d: SegmentationDataSet, out: &mut [i16])
    ensures { out.new ≡ over_front 16 d.delta_q out.old }
{
    put_front(&mut *out, &d.delta_q);
}

pub fn put_masks(d: SegmentationDataSet, out: &mut [u16])
    ensures { out.new ≡ over_front 3 (flat_masks d) out.old }
{
    put_front(&mut *out, &[d.delta_q_mask, d.skip_mask, d.globalmv_mask]);
}

#[tactic(auto, unfolding(crate::specs::Segments::seg_info_of))]
pub fn seg_info_of(delta_q: &[i16], masks: &[u16]) -> SegmentationDataSet
    ensures { result ≡ seg_info_of delta_q.now masks.now }
{
    if delta_q.len() < 16 {
        return no_seg_info();
    }
    if masks.len() < 3 {
        return no_seg_info();
    }
    SegmentationDataSet {
        delta_q: front(delta_q),
        delta_q_mask: masks[0],
        skip_mask: masks[1],
        globalmv_mask: masks[2],
    }
}
