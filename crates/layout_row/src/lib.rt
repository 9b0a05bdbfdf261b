// The row of bits of a tile layout, in bytes.
#![tactic(auto)]

ghost use Rattle.std.specs.Prelude.{true, [], ◌∷◌, ◌≡◌, ◌+◌, ◌-◌, ◌*◌, ◌%◌, ◌^◌, ◌<◌, ◌≤◌, length};
ghost use Rattle.codes.specs.Codes.{bit_length};
ghost use Rattle.tile_layout.specs.Limits.{in_domain};
ghost use Rattle.tile_layout.specs.Layout.{tabulate, widest};
ghost use Rattle.layout_bits.specs.Rows.{bytes_of};
ghost use Rattle.layout_bits.specs.Bits.{bits_of, uniform_code, ones_code, log_code, logs_code, sizes_code, sides_code, col_sizes, row_sizes, layout_bits};
ghost use Rattle.layout_row.specs.Row.{has_row, row_of};
ghost use Rattle.layout_row.specs.Inner.{Appended, size_at};

use getbits::power;
use superblocks::{FrameSb, size_at, size_number};
use tile_info::{SizeBounds, col_bounds, row_bounds};
use tile_layout::{TileArgs, TileInfo, in_domain};

// How many bits there are, and the bytes that they make, with zeros behind them.
#[derive(Clone, Copy)]
pub struct LayoutRow {
    pub bits: u32,
    pub bytes: [u8; 177],
}

// A byte with its bit k set, which was 0, if bit is 1.
fn with_bit(byte: u8, k: u32, bit: u32) -> u8
    requires { (k < 8) × (bit < 2) }
    ensures { result ≡ (byte + bit * 2 ^ (7 - k)) % 256 }
{
    ((byte as u32 + bit * power(7 - k)) % 256) as u8
}

// One bit behind the first `at`. Here and below, where the row then ends is told.
fn put_bit(row: &mut [u8; 177], at: u32, bit: u32) -> u32
    requires { (at < 1416) × (bit < 2) }
    ensures { Appended row.old at (bit ∷ []) row.new result }
{
    let i = (at / 8) as usize;
    row[i] = with_bit(row[i], at % 8, bit);
    at + 1
}

// v in n bits, the most significant first.
fn put_bits(row: &mut [u8; 177], at: u32, n: u32, v: u32) -> u32
    requires { (at + n ≤ 1416) × (n ≤ 32) }
    ensures { Appended row.old at (bits_of n v) row.new result }
{
    let mut end = at;
    for i in 0..n {
        end = put_bit(row, end, (v >> (n - 1 - i)) % 2);
    }
    end
}

fn bit_length(x: u32) -> u32
    ensures { result ≡ bit_length x }
{
    32 - u32::leading_zeros(x)
}

// What get_uniform(max) reads v from.
fn put_uniform(row: &mut [u8; 177], at: u32, max: u32, v: u32) -> u32
    requires { (at + 11 ≤ 1416) × (max ≤ 1024) × (v < 65536) }
    ensures { Appended row.old at (uniform_code max v) row.new result × (result ≤ at + 11) }
{
    if max <= 1 {
        return at;
    }
    let l = bit_length(max);
    let m = power(l) - max;
    if v < m {
        return put_bits(row, at, l - 1, v);
    }
    put_bits(row, at, l, v + m)
}

// n ones, and a zero behind them unless there are `most`.
fn put_ones(row: &mut [u8; 177], at: u32, most: u8, n: u8) -> u32
    requires { at + 256 ≤ 1416 }
    ensures { Appended row.old at (ones_code most n) row.new result × (result ≤ at + 256) }
{
    let mut end = at;
    for _i in 0..n {
        end = put_bit(row, end, 1);
    }
    if n < most {
        return put_bit(row, end, 0);
    }
    end
}

fn put_log2(row: &mut [u8; 177], at: u32, least: u8, most: u8, log2: u8) -> u32
    requires { at + 256 ≤ 1416 }
    ensures { Appended row.old at (log_code least most log2) row.new result × (result ≤ at + 256) }
{
    put_ones(
        row,
        at,
        most.saturating_sub(least),
        log2.saturating_sub(least),
    )
}

fn put_logs(row: &mut [u8; 177], at: u32, t: TileInfo) -> u32
    requires { at + 512 ≤ 1416 }
    ensures { Appended row.old at (logs_code t) row.new result }
{
    let end = put_log2(row, at, t.min_log2_cols, t.max_log2_cols, t.log2_cols);
    put_log2(row, end, t.min_log2_rows, t.max_log2_rows, t.log2_rows)
}

// The sizes of the tiles between these starts.
fn put_sizes(row: &mut [u8; 177], at: u32, starts: &[u16], tiles: u8, bounds: SizeBounds) -> u32
    requires { (at + 11 * tiles ≤ 1416) × (bounds.total.0 ≤ 1024) }
    ensures { Appended row.old at (sizes_code bounds.total.0 bounds.limit.0 (tabulate (size_at starts.now) 0 tiles)) row.new result × (result ≤ at + 11 * tiles) }
{
    let mut rest = bounds.total;
    let mut end = at;
    for i in 0..tiles {
        let size = size_at(starts, i);
        let z = size_number(size, rest, bounds.limit);
        end = put_uniform(row, end, z.max, z.value);
        rest = rest.minus(size);
    }
    end
}

// The largest size of the tiles between these starts.
fn widest_of(starts: &[u16], tiles: u8) -> FrameSb
    ensures { result.0 ≡ widest (tabulate (size_at starts.now) 0 tiles) }
{
    let mut most = FrameSb::none();
    for i in 0..tiles {
        most = most.most(size_at(starts, i));
    }
    most
}

fn put_sides(row: &mut [u8; 177], at: u32, a: TileArgs, t: TileInfo) -> u32
    requires { (at ≤ 1) × (in_domain a ≡ true) × (t.cols ≤ 64) × (t.rows ≤ 64) }
    ensures { Appended row.old at (sides_code a (col_sizes t) (row_sizes t)) row.new result }
{
    let end = put_sizes(row, at, &t.col_start_sb, t.cols, col_bounds(a));
    let widest_tile = widest_of(&t.col_start_sb, t.cols);
    put_sizes(
        row,
        end,
        &t.row_start_sb,
        t.rows,
        row_bounds(a, widest_tile),
    )
}

// The flag, then the logarithms or the sizes.
fn put_layout(row: &mut [u8; 177], a: TileArgs, t: TileInfo) -> u32
    requires { has_row a t ≡ true }
    ensures { Appended row.old 0 (layout_bits a t) row.new result }
{
    if t.uniform {
        let at = put_bit(row, 0, 1);
        return put_logs(row, at, t);
    }
    let at = put_bit(row, 0, 0);
    put_sides(row, at, a, t)
}

fn has_row(a: TileArgs, t: TileInfo) -> bool
    ensures { result ≡ has_row a t }
{
    in_domain(a) & (t.cols <= 64) & (t.rows <= 64)
}

pub fn layout_row(a: TileArgs, t: TileInfo) -> LayoutRow
    ensures { (result.bits ≡ length (row_of a t)) × (result.bytes ≡ bytes_of 177 (row_of a t)) }
{
    let mut bytes = [0u8; 177];
    if has_row(a, t) {
        let bits = put_layout(&mut bytes, a, t);
        return LayoutRow { bits, bytes };
    }
    LayoutRow { bits: 0, bytes }
}
