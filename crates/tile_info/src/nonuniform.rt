// The non-uniform rule.
ghost use Rattle.std.specs.Prelude.{◌≡◌, true, ◌≤◌, length, drop};
ghost use Rattle.tile_layout.specs.Limits.{in_domain};
ghost use Rattle.tile_layout.specs.Layout.{read_sizes, row_limit};
ghost use Rattle.tile_info.specs.Inner.{Known, SizesOf, TilesOf};

use super::limits::FrameLimits;
use flat::clear_starts;
use getbits::Place;
use superblocks::{FrameSb, read_size, tiles_log2};
use tile_layout::TileArgs;

#[derive(Clone, Copy)]
pub struct Sizes {
    pub tiles: u8,
    pub sum: FrameSb,
    pub widest: FrameSb,
    pub next: Place,
}

// Sizes are read until nothing of `total` remains or there are 64. Zeros stand behind their starts.
fn read_sizes(s: &[u8], p: Place, starts: &mut [u16], total: FrameSb, limit: FrameSb) -> Sizes
    requires { (65 ≤ length starts.old) × (total.0 ≤ 1024) × (1 ≤ limit.0) }
    ensures { SizesOf (read_sizes 64 s.now p total.0 limit.0) result (drop 65 starts.old) starts.new }
{
    clear_starts(&mut *starts);
    let mut next = p;
    let mut sbx = FrameSb::none();
    let mut widest_tile = FrameSb::none();
    let mut tiles: u8 = 0;
    while sbx.below(total) && tiles < 64 {
        starts[tiles as usize] = sbx.number();
        let z = read_size(s, next, total.minus(sbx), limit);
        next = z.next;
        widest_tile = widest_tile.most(z.value);
        sbx = sbx.plus(z.value);
        tiles += 1;
    }
    Sizes {
        tiles,
        sum: sbx,
        widest: widest_tile,
        next,
    }
}

#[derive(Clone, Copy)]
pub struct Tiles {
    pub tiles: u8,
    pub log2: u8,
    pub short: bool,
    pub widest: FrameSb,
    pub next: Place,
}

// The columns or rows of a layout, with the closing entry; `short` says that they leave superblocks over.
pub fn read_tiles(s: &[u8], p: Place, starts: &mut [u16], total: FrameSb, limit: FrameSb) -> Tiles
    requires { (65 ≤ length starts.old) × (total.0 ≤ 1024) × (1 ≤ limit.0) }
    ensures { TilesOf (read_sizes 64 s.now p total.0 limit.0) total.0 result (drop 65 starts.old) starts.new }
{
    let z = read_sizes(s, p, &mut *starts, total, limit);
    starts[z.tiles as usize] = total.number();
    Tiles {
        tiles: z.tiles,
        log2: tiles_log2(z.tiles),
        short: z.sum.below(total),
        widest: z.widest,
        next: z.next,
    }
}

// The most superblocks that a row may have, beside a column of `widest_tile`.
pub fn max_tile_height_sb(a: TileArgs, k: FrameLimits, widest_tile: FrameSb) -> FrameSb
    requires in_the_domain { in_domain a ≡ true }
    requires known { Known a k }
    ensures { result.0 ≡ row_limit a widest_tile.0 }
{
    let area = k.sbw.times(k.sbh);
    if k.min_log2_tiles == 0 {
        return area.max_height(0, widest_tile);
    }
    area.max_height(k.min_log2_tiles + 1, widest_tile)
}
