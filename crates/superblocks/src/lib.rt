// Counts of superblocks, of the sequence's size and of the frame's, as two types. No function adds the one to the other: `in_frame` alone turns
// the one into the other, by the multiplier of the pair of codes, and `same_number` alone compares the two as they are. Every function has an
// answer for every argument.
#![tactic(auto)]

ghost use Rattle.std.specs.Prelude.{◌≡◌, ◌+◌, ◌-◌, ◌*◌, ◌/◌, ◌%◌, ◌^◌, ◌<◌, ◌≤◌, min, max, ◌==◌, nat_le, nat_lt, slice_index};
ghost use Rattle.codes.specs.Codes.{get_uniform};
ghost use Rattle.tile_layout.specs.Limits.{superblocks, tile_log2};
ghost use Rattle.tile_layout.specs.Layout.{base, count, larger};
ghost use Rattle.superblocks.specs.Counts.{multiplier_of, size_of, fits_uniform};

use codes::get_uniform;
use getbits::{Place, Read, power};
use tile_layout::start_at;

mod quotient;

use quotient::quotient;

// A count of the sequence's superblocks.
#[derive(Clone, Copy)]
pub struct SeqSb(u32);

// A count of the frame's superblocks.
#[derive(Clone, Copy)]
pub struct FrameSb(u32);

// An area in the frame's superblocks.
#[derive(Clone, Copy)]
pub struct AreaSb(u32);

// A count of tiles.
#[derive(Clone, Copy)]
pub struct TileCount(u32);

// The superblock codes of a frame and of its sequence.
#[derive(Clone, Copy)]
pub struct Pair {
    frame_code: u8,
    seq_code: u8,
}

// How a row of superblocks is split: `tiles` tiles of `tile` superblocks, the first `extra` of them one larger.
#[derive(Clone, Copy)]
pub struct Split {
    pub tile: SeqSb,
    pub extra: TileCount,
    pub tiles: TileCount,
}

// A size as get_uniform has it: a number below max.
#[derive(Clone, Copy)]
pub struct SizeNumber {
    pub max: u32,
    pub value: u32,
}

// How many of the frame's superblocks one of the sequence's is wide.
pub fn multiplier_of(frame_code: u8, seq_code: u8) -> u32
    ensures { (result ≡ multiplier_of frame_code seq_code) × (result ≤ 2) }
{
    if (frame_code == 1) & (seq_code == 2) {
        2
    } else {
        1
    }
}

// n / 2 ^ log2, for a logarithm below 32.
fn shifted(n: u32, log2: u8) -> u32
    ensures { result ≡ n / 2 ^ (log2 % 32) }
{
    n >> (log2 % 32) as u32
}

// The logarithm of a superblock's size in samples. A code above 2 counts as 2.
fn sbsz_log2(code: u8) -> u32
    ensures { (2 ^ result ≡ size_of code) × (6 ≤ result) × (result ≤ 8) }
{
    6 + u32::from(code.min(2))
}

// n samples in superblocks of a size, rounded down.
fn whole_sbs(n: u64, code: u8) -> u32
    requires { n < 2 ^ 33 }
    ensures { result ≡ n / size_of code }
{
    (n >> sbsz_log2(code)) as u32
}

// n samples in superblocks of a size, rounded up.
fn sb_count(n: u32, code: u8) -> u32
    ensures { result ≡ superblocks n (min code 2) }
{
    let sbsz_min1 = power(sbsz_log2(code)) - 1;
    whole_sbs(u64::from(n) + u64::from(sbsz_min1), code)
}

// The least k with sz * 2 ^ k at least tgt: as many bits as tgt is longer, or one more.
fn tile_log2(sz: u32, tgt: u32) -> u8
    requires { (1 ≤ sz) × (tgt ≤ 1048576) }
    ensures { result ≡ tile_log2 sz tgt }
{
    let k = sz.leading_zeros().saturating_sub(tgt.leading_zeros());
    if sz << k < tgt {
        return (k + 1) as u8;
    }
    k as u8
}

// A size counts as 1 at least, and a target as 2 ^ 20 at most.
fn held_log2(sz: u32, tgt: u32) -> u8
    ensures { result ≡ tile_log2 (max 1 sz) (min tgt 1048576) }
{
    tile_log2(sz.max(1), tgt.min(1_048_576))
}

// The logarithm of a number of tiles, rounded up.
pub fn tiles_log2(tiles: u8) -> u8
    ensures { result ≡ tile_log2 1 tiles }
{
    tile_log2(1, tiles as u32)
}

impl Pair {
    pub fn of(frame_code: u8, seq_code: u8) -> Pair
        ensures { (result.frame_code ≡ frame_code) × (result.seq_code ≡ seq_code) }
    {
        Pair {
            frame_code,
            seq_code,
        }
    }

    // Is the multiplier 2?
    pub fn doubles(self) -> bool
        ensures { result ≡ (multiplier_of self.frame_code self.seq_code == 2) }
    {
        multiplier_of(self.frame_code, self.seq_code) == 2
    }

    // The frame's superblocks along n samples, rounded up.
    pub fn frame_count(self, n: u32) -> FrameSb
        ensures { result.0 ≡ superblocks n (min self.frame_code 2) }
    {
        FrameSb(sb_count(n, self.frame_code))
    }

    // The sequence's superblocks along n samples, rounded up.
    pub fn seq_count(self, n: u32) -> SeqSb
        ensures { result.0 ≡ superblocks n (min self.seq_code 2) }
    {
        SeqSb(sb_count(n, self.seq_code))
    }

    // The sequence's superblocks along n samples; a last one that lacks 8 samples or more isn't counted.
    pub fn full_count(self, n: u32) -> SeqSb
        ensures { result.0 ≡ max 1 ((n + 7) / size_of self.seq_code) }
    {
        SeqSb(whole_sbs(u64::from(n) + 7, self.seq_code).max(1))
    }

    // The frame's superblocks that n samples hold.
    pub fn width_limit(self, n: u32) -> FrameSb
        ensures { result.0 ≡ n / size_of self.frame_code }
    {
        FrameSb(n >> sbsz_log2(self.frame_code))
    }

    // The frame's superblocks that an area of n samples holds.
    pub fn area_limit(self, n: u32) -> AreaSb
        ensures { result.0 ≡ n / (size_of self.frame_code * size_of self.frame_code) }
    {
        let log2 = sbsz_log2(self.frame_code);
        AreaSb(n >> log2 >> log2)
    }
}

impl SeqSb {
    pub fn none() -> SeqSb
        ensures { result.0 ≡ 0 }
    {
        SeqSb(0)
    }

    pub fn one() -> SeqSb
        ensures { result.0 ≡ 1 }
    {
        SeqSb(1)
    }

    pub fn plus(self, b: SeqSb) -> SeqSb
        ensures { result.0 ≡ (self.0 + b.0) % 4294967296 }
    {
        SeqSb(self.0.wrapping_add(b.0))
    }

    // The multiplier turns a count of the sequence's superblocks into one of the frame's.
    pub fn in_frame(self, pair: Pair) -> FrameSb
        ensures { result.0 ≡ multiplier_of pair.frame_code pair.seq_code * self.0 % 4294967296 }
    {
        if pair.doubles() {
            return FrameSb(self.0.wrapping_add(self.0));
        }
        FrameSb(self.0)
    }

    // The numbers alone, though the superblocks may have two sizes: the Rust compares them so.
    pub fn same_number(self, b: FrameSb) -> bool
        ensures { result ≡ (self.0 == b.0) }
    {
        self.0 == b.0
    }
}

impl FrameSb {
    pub fn none() -> FrameSb
        ensures { result.0 ≡ 0 }
    {
        FrameSb(0)
    }

    pub fn plus(self, b: FrameSb) -> FrameSb
        ensures { result.0 ≡ (self.0 + b.0) % 4294967296 }
    {
        FrameSb(self.0.wrapping_add(b.0))
    }

    // 0 where b is larger.
    pub fn minus(self, b: FrameSb) -> FrameSb
        ensures { result.0 ≡ self.0 - b.0 }
    {
        FrameSb(self.0.saturating_sub(b.0))
    }

    pub fn most(self, b: FrameSb) -> FrameSb
        ensures { result.0 ≡ max self.0 b.0 }
    {
        FrameSb(self.0.max(b.0))
    }

    pub fn below(self, b: FrameSb) -> bool
        ensures { result ≡ nat_lt self.0 b.0 }
    {
        self.0 < b.0
    }

    // The area of these columns and `rows` rows.
    pub fn times(self, rows: FrameSb) -> AreaSb
        ensures { result.0 ≡ min (self.0 * rows.0) 4294967295 }
    {
        // saturating_mul would divide.
        let area = u64::from(self.0) * u64::from(rows.0);
        AreaSb(area.min(u64::from(u32::MAX)) as u32)
    }

    // The least logarithm by which tiles of at most this size reach `all`.
    pub fn log2_to(self, all: FrameSb) -> u8
        ensures { result ≡ tile_log2 (max 1 self.0) (min all.0 1048576) }
    {
        held_log2(self.0, all.0)
    }

    // Then 64 tiles always suffice.
    pub fn at_most_64(self) -> bool
        ensures { result ≡ nat_le self.0 64 }
    {
        self.0 <= 64
    }

    // As a record has it.
    pub fn number(self) -> u16
        ensures { result ≡ self.0 % 65536 }
    {
        (self.0 % 65536) as u16
    }

    // The largest logarithm, for at most 64 tiles.
    pub fn max_log2(self) -> u8
        ensures { result ≡ tile_log2 1 (min self.0 64) }
    {
        tile_log2(1, self.0.min(64))
    }

    // Does the last of 2 ^ log2 even tiles begin inside?
    pub fn fits_uniform(self, log2: u8) -> bool
        ensures { result ≡ fits_uniform (log2 % 32) self.0 }
    {
        let tiles = u64::from(power(log2 as u32));
        let n = u64::from(self.0);
        let tile = (n + (tiles - 1)) >> (log2 % 32) as u32;
        tile * (tiles - 1) < n
    }
}

impl AreaSb {
    // The least logarithm by which tiles of at most this area cover `area`.
    pub fn log2_to(self, area: AreaSb) -> u8
        ensures { result ≡ tile_log2 (max 1 self.0) (min area.0 1048576) }
    {
        held_log2(self.0, area.0)
    }

    // The most superblocks that a row may have, beside a column of `widest_tile`, by the area divided by 2 ^ log2; 1 at least.
    pub fn max_height(self, log2: u8, widest_tile: FrameSb) -> FrameSb
        ensures { result.0 ≡ max 1 (self.0 / 2 ^ (log2 % 32) / widest_tile.0) }
    {
        if widest_tile.0 == 0 {
            return FrameSb(1);
        }
        FrameSb(quotient(shifted(self.0, log2), widest_tile.0).max(1))
    }
}

impl TileCount {
    // Is there a tile with this number? The first has number 0.
    pub fn has(self, i: u8) -> bool
        ensures { result ≡ nat_lt i self.0 }
    {
        (i as u32) < self.0
    }

    // As a record has it.
    pub fn number(self) -> u8
        ensures { result ≡ self.0 % 256 }
    {
        (self.0 % 256) as u8
    }
}

// The start of tile i of a sequence's layout, or its closing entry.
pub fn seq_start(starts: &[u16], i: u8) -> SeqSb
    ensures { result.0 ≡ slice_index starts.now i }
{
    SeqSb(start_at(starts, i as usize) as u32)
}

// One size, where `rest` superblocks remain.
pub fn read_size(s: &[u8], p: Place, rest: FrameSb, limit: FrameSb) -> Read<FrameSb>
    ensures { (result.value.0 ≡ (get_uniform s.now p (min rest.0 limit.0)).value + 1)
        × (result.next ≡ (get_uniform s.now p (min rest.0 limit.0)).next) }
{
    let g = get_uniform(s, p, rest.0.min(limit.0));
    let next = g.next;
    Read {
        value: FrameSb(g.value + 1),
        // Field by field: a place copied whole is loaded before its parts have left the store buffer.
        next: Place {
            byte: next.byte,
            used: next.used,
            error: next.error,
        },
    }
}

// The size of tile i of a frame's layout: the next start, or the closing one, less its own; 0 where that is below 0.
pub fn size_at(starts: &[u16], i: u8) -> FrameSb
    ensures { (result.0 ≡ slice_index starts.now (i + 1) - slice_index starts.now i) × (result.0 < 65536) }
{
    let start = start_at(starts, i as usize);
    let next = start_at(starts, i as usize + 1);
    FrameSb(next as u32).minus(FrameSb(start as u32))
}

// The number that read_size reads a size from, where `rest` superblocks remain.
pub fn size_number(size: FrameSb, rest: FrameSb, limit: FrameSb) -> SizeNumber
    ensures { (result.max ≡ min rest.0 limit.0) × (result.value ≡ size.0 - 1) }
{
    SizeNumber {
        max: rest.0.min(limit.0),
        value: size.0.saturating_sub(1),
    }
}

// The even split of fsb full superblocks, of ssb in all, by a logarithm below 32.
pub fn even_split(fsb: SeqSb, ssb: SeqSb, log2: u8) -> Split
    ensures { (result.tile.0 ≡ base fsb.0 (log2 % 32)) × (result.tiles.0 ≡ count fsb.0 ssb.0 (log2 % 32))
        × (result.extra.0 ≡ larger fsb.0 ssb.0 (log2 % 32)) }
{
    let max_tiles = power(log2 as u32);
    let tile = SeqSb(shifted(fsb.0, log2));
    if tile.0 == 0 {
        return Split {
            tile,
            extra: TileCount(ssb.0),
            tiles: TileCount(ssb.0),
        };
    }
    Split {
        tile,
        extra: TileCount(fsb.0 & (max_tiles - 1)),
        tiles: TileCount(max_tiles),
    }
}
