// The records of a tile layout, and the domain of its arguments.
#![tactic(auto)]

ghost use Rattle.std.specs.Prelude.{◌≡◌, get_or};
ghost use Rattle.tile_layout.specs.Limits.{unsigned, args_of, is_size, is_pair, in_domain, no_tile_info};

use answers::Answer;
use getbits::Place;

// Starts are counted in the frame's superblocks; the entry behind the last start closes the layout.
#[derive(Clone, Copy, PartialEq, Eq)]
pub struct TileInfo {
    pub uniform: bool,
    pub min_log2_cols: u8,
    pub max_log2_cols: u8,
    pub log2_cols: u8,
    pub cols: u8,
    pub min_log2_rows: u8,
    pub max_log2_rows: u8,
    pub log2_rows: u8,
    pub rows: u8,
    pub col_start_sb: [u16; 65],
    pub row_start_sb: [u16; 65],
}

// What a layout is read for.
#[derive(Clone, Copy)]
pub struct TileArgs {
    pub multiplier: u32,
    pub frame_code: u8,
    pub seq_code: u8,
    pub width: u32,
    pub height: u32,
    pub level: u8,
    pub tier: u8,
}

// The answer, the layout with it and the place after the reading. A refusal has the layout that was given.
#[derive(Clone, Copy)]
pub struct TileRead {
    pub answer: Answer,
    pub info: TileInfo,
    pub next: Place,
}

// A number below 0 counts as 0.
pub fn not_below_0(x: i32) -> u32
    ensures { result ≡ unsigned x }
{
    if x < 0 {
        return 0;
    }
    x as u32
}

// Frame width and height are 1 to 65,536.
pub fn is_size(n: u32) -> bool
    ensures { result ≡ is_size n }
{
    (1 <= n) & (n <= 65536)
}

pub fn tile_args(
    sbmul: i32,
    sb128: u8,
    seq_sb128: u8,
    w: i32,
    h: i32,
    level: u8,
    tier: u8,
) -> TileArgs
    ensures { result ≡ args_of sbmul sb128 seq_sb128 w h level tier }
{
    TileArgs {
        multiplier: not_below_0(sbmul),
        frame_code: sb128,
        seq_code: seq_sb128,
        width: not_below_0(w),
        height: not_below_0(h),
        level,
        tier,
    }
}

fn is_pair(f: u8, q: u8, m: u32) -> bool
    ensures { result ≡ is_pair f q m }
{
    ((f <= 2) & (f == q) & (m == 1)) | ((f == 1) & (q == 2) & (m == 2))
}

pub fn in_domain(a: TileArgs) -> bool
    ensures { result ≡ in_domain a }
{
    is_size(a.width)
        & is_size(a.height)
        & (a.level <= 31)
        & (a.tier <= 1)
        & is_pair(a.frame_code, a.seq_code, a.multiplier)
}

// The start at i, and 0 past the end.
pub fn start_at(starts: &[u16], i: usize) -> u16
    ensures { result ≡ get_or starts.now i 0 }
{
    if i < starts.len() { starts[i] } else { 0 }
}

pub fn no_tile_info() -> TileInfo
    ensures { result ≡ no_tile_info }
{
    TileInfo {
        uniform: false,
        min_log2_cols: 0,
        max_log2_cols: 0,
        log2_cols: 0,
        cols: 0,
        min_log2_rows: 0,
        max_log2_rows: 0,
        log2_rows: 0,
        rows: 0,
        col_start_sb: [0; 65],
        row_start_sb: [0; 65],
    }
}
