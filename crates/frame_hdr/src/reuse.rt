// The sequence's layout for a frame: may it be reused, is it, and what becomes of it.
ghost use Rattle.std.specs.Prelude.{◌≡◌, true, false, ◌&&◌, ◌++◌, ◌*◌, ◌≤◌, length, get_or, take, drop, eqb};
ghost use Rattle.flat.specs.Layout.{buffers, has_room, put_layout, layout_in};
ghost use Rattle.getbits.specs.Chain.{pick};
ghost use Rattle.tile_layout.specs.Limits.{unsigned, superblocks, in_domain, sbw, sbh};
ghost use Rattle.tile_layout.specs.Layout.{padded, tabulate};
ghost use Rattle.superblocks.specs.Counts.{multiplier_of, fits_uniform};
ghost use Rattle.frame_layout.specs.Frame.{starts_low, usable_tiles, is_off, not_reused, ask_reuse, reused_starts, reused_info};

use super::domain::is_off;
use flat::{clear_starts, put_layout_bytes};
use getbits::{Place, Read, get_flag, read_bits};
use lent::is_set;
use seq_fields::AdaptiveBoolean;
use superblocks::{FrameSb, Pair, seq_start};
use tile_layout::{TileArgs, not_below_0};

// A non-uniform layout: the frame's counts are those of the sequence's maximum size.
fn same_counts(pair: Pair, sbw: FrameSb, sbh: FrameSb, max_width: i32, max_height: i32) -> bool
    requires { pair.seq_code ≤ 2 }
    ensures { result ≡ eqb (superblocks (unsigned max_width) pair.seq_code) sbw.0
        && eqb (superblocks (unsigned max_height) pair.seq_code) sbh.0 }
{
    let seq_sbw = pair.seq_count(not_below_0(max_width));
    let seq_sbh = pair.seq_count(not_below_0(max_height));
    seq_sbw.same_number(sbw) & seq_sbh.same_number(sbh)
}

// The sequence's layout, uniform or not, with its logarithms.
pub fn reuse_allowed(
    a: TileArgs,
    max_width: i32,
    max_height: i32,
    present: AdaptiveBoolean,
    uniform: bool,
    log2_cols: u8,
    log2_rows: u8,
) -> bool
    requires in_the_domain { in_domain a ≡ true }
    requires log2_cols_bound { is_off present ≡ false → (log2_cols ≤ 6) × (log2_rows ≤ 6) }
    ensures { result ≡ pick (is_off present) false (pick uniform (fits_uniform log2_cols (sbw a) && fits_uniform log2_rows (sbh a))
        (eqb (superblocks (unsigned max_width) a.seq_code) (sbw a) && eqb (superblocks (unsigned max_height) a.seq_code) (sbh a))) }
{
    if is_off(present) {
        return false;
    }
    let pair = Pair::of(a.frame_code, a.seq_code);
    let sbw = pair.frame_count(a.width);
    let sbh = pair.frame_count(a.height);
    if uniform {
        return sbw.fits_uniform(log2_cols) & sbh.fits_uniform(log2_rows);
    }
    same_counts(pair, sbw, sbh, max_width, max_height)
}

// Where it is allowed, On reuses it without a bit, and for Adaptive a bit says whether.
pub fn read_reuse(s: &[u8], p: Place, reuse_allowed: bool, present: AdaptiveBoolean) -> Read<bool>
    ensures { result ≡ pick reuse_allowed (ask_reuse present s.now p) (not_reused s.now p) }
{
    let here = read_bits(s, p, 0);
    let next = here.next;
    if !reuse_allowed {
        return Read { value: false, next };
    }
    match present {
        AdaptiveBoolean::Off => Read { value: false, next },
        AdaptiveBoolean::On => Read { value: true, next },
        AdaptiveBoolean::Adaptive => get_flag(s, p),
    }
}

// The starts, from the sequence's superblocks to the frame's, and zeros behind them.
fn frame_starts(at: &mut [u16], starts: &[u16], pair: Pair, tiles: u8)
    requires { (65 ≤ length at.old) × (tiles ≤ 64) × (starts_low (take 65 starts.now) tiles ≡ true) }
    ensures { let multiplier = multiplier_of pair.frame_code pair.seq_code in
        at.new ≡ padded (tabulate (λ i. multiplier * get_or (take 65 starts.now) i 0) 0 tiles) ++ drop 65 at.old }
{
    clear_starts(&mut *at);
    for i in 0..tiles {
        at[i as usize] = seq_start(starts, i).in_frame(pair).number();
    }
}

// The closing entry becomes the frame's only with multiplier 2.
fn closing_entry(starts: &[u16], pair: Pair, tiles: u8, closing: FrameSb) -> FrameSb
    requires { (tiles ≤ 64) × (starts_low (take 65 starts.now) tiles ≡ true) }
    ensures { let multiplier = multiplier_of pair.frame_code pair.seq_code in
        result.0 ≡ pick (eqb multiplier 2) closing.0 (get_or (take 65 starts.now) tiles 0) }
{
    if pair.doubles() {
        return closing;
    }
    seq_start(starts, tiles).in_frame(pair)
}

fn reused_starts(at: &mut [u16], starts: &[u16], pair: Pair, tiles: u8, closing: FrameSb)
    requires { (65 ≤ length at.old) × (tiles ≤ 64) × (starts_low (take 65 starts.now) tiles ≡ true) × (closing.0 ≤ 1024) }
    ensures { at.new ≡ reused_starts (multiplier_of pair.frame_code pair.seq_code) (take 65 starts.now) tiles closing.0
        ++ drop 65 at.old }
{
    frame_starts(&mut *at, starts, pair, tiles);
    at[tiles as usize] = closing_entry(starts, pair, tiles, closing).number();
}

// The sequence's layout becomes the frame's.
pub fn reused_layout(
    a: TileArgs,
    seq_info: &[u8],
    seq_cols: &[u16],
    seq_rows: &[u16],
    info: &mut [u8],
    cols: &mut [u16],
    rows: &mut [u16],
)
    requires in_the_domain { in_domain a ≡ true }
    requires room { has_room (buffers info.old cols.old rows.old) ≡ true }
    requires in_bounds { (9 ≤ length seq_info.now) × (65 ≤ length seq_cols.now) × (65 ≤ length seq_rows.now) }
    requires seq_cols_value { usable_tiles (get_or seq_info.now 4 0) (get_or seq_info.now 3 0) (take 65 seq_cols.now) ≡ true }
    requires seq_rows_value { usable_tiles (get_or seq_info.now 8 0) (get_or seq_info.now 7 0) (take 65 seq_rows.now) ≡ true }
    ensures { let before = buffers info.old cols.old rows.old in
        let after = buffers info.new cols.new rows.new in
        let seq-before = buffers seq_info.now seq_cols.now seq_rows.now in
        after ≡ put_layout (reused_info a (layout_in seq-before)) before }
{
    let pair = Pair::of(a.frame_code, a.seq_code);
    let sbw = pair.frame_count(a.width);
    let sbh = pair.frame_count(a.height);
    reused_starts(&mut *cols, seq_cols, pair, seq_info[4], sbw);
    reused_starts(&mut *rows, seq_rows, pair, seq_info[8], sbh);
    put_layout_bytes(
        &mut *info,
        is_set(seq_info[0]),
        seq_info[1],
        seq_info[2],
        seq_info[3],
        seq_info[4],
        seq_info[5],
        seq_info[6],
        seq_info[7],
        seq_info[8],
    );
}
