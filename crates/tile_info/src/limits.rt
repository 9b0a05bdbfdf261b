// The frame's size in superblocks, the level's limits and the logarithms.
ghost use Rattle.std.specs.Prelude.{◌≡◌, true};
ghost use Rattle.tile_layout.specs.Limits.{in_domain, width_limit, area_limit};
ghost use Rattle.tile_info.specs.Inner.{Known, Coded};

use getbits::power;
use superblocks::{AreaSb, FrameSb, Pair};
use tile_layout::TileArgs;

#[derive(Clone, Copy)]
pub struct FrameLimits {
    pub pair: Pair,
    pub sbw: FrameSb,
    pub sbh: FrameSb,
    pub max_tile_width_sb: FrameSb,
    pub min_log2_cols: u8,
    pub max_log2_cols: u8,
    pub max_log2_rows: u8,
    pub min_log2_tiles: u8,
}

fn max_tile_width_sb(a: TileArgs, pair: Pair) -> FrameSb
    requires in_the_domain { in_domain a ≡ true }
    requires coded { Coded a pair }
    ensures { result.0 ≡ width_limit a }
{
    let w_adj = u32::from(a.level >= 18) + u32::from((a.level >= 14) & (a.tier == 1));
    pair.width_limit(4096 * power(w_adj))
}

fn max_tile_area_sb(a: TileArgs, pair: Pair) -> AreaSb
    requires in_the_domain { in_domain a ≡ true }
    requires coded { Coded a pair }
    ensures { result.0 ≡ area_limit a }
{
    let sz_adj = u32::from(a.level >= 14)
        + u32::from(a.level >= 18)
        + u32::from((a.level >= 14) & (a.tier == 1));
    pair.area_limit(9_437_184 * power(sz_adj))
}

pub fn frame_limits(a: TileArgs) -> FrameLimits
    requires { in_domain a ≡ true }
    ensures { Known a result }
{
    let pair = Pair::of(a.frame_code, a.seq_code);
    let sbw = pair.frame_count(a.width);
    let sbh = pair.frame_count(a.height);
    let max_width = max_tile_width_sb(a, pair);
    let min_log2_cols = max_width.log2_to(sbw);
    let area_log2 = max_tile_area_sb(a, pair).log2_to(sbw.times(sbh));
    FrameLimits {
        pair,
        sbw,
        sbh,
        max_tile_width_sb: max_width,
        min_log2_cols,
        max_log2_cols: sbw.max_log2(),
        max_log2_rows: sbh.max_log2(),
        min_log2_tiles: area_log2.max(min_log2_cols),
    }
}
