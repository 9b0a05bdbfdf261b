// The domain: the frame's size, and a usable sequence record.
ghost use Rattle.std.specs.Prelude.{◌≡◌, ◌≤◌, length, take};
ghost use Rattle.flat.specs.Layout.{buffers};
ghost use Rattle.tile_layout.specs.Limits.{unsigned, is_size};
ghost use Rattle.frame_layout.specs.Frame.{starts_low, usable_tiles, is_off, usable};
ghost use Rattle.frame_hdr.specs.Into.{seq_in};

use seq_fields::AdaptiveBoolean;
use tile_layout::{is_size, not_below_0};

// A width or height in the domain.
pub fn is_extent(x: i32) -> bool
    ensures { result ≡ is_size (unsigned x) }
{
    is_size(not_below_0(x))
}

// All starts up to and with entry n are at most 1,024.
fn starts_low(starts: &[u16], n: u8) -> bool
    requires { (n ≤ 64) × (65 ≤ length starts.now) }
    ensures { result ≡ starts_low (take 65 starts.now) n }
{
    let mut low = starts[0] <= 1024;
    for start in &starts[1..=n as usize] {
        low &= *start <= 1024;
    }
    low
}

fn usable_tiles(tiles: u8, log2: u8, starts: &[u16]) -> bool
    requires { 65 ≤ length starts.now }
    ensures { result ≡ usable_tiles tiles log2 (take 65 starts.now) }
{
    if (1 <= tiles) & (tiles <= 64) & (log2 <= 6) {
        return starts_low(starts, tiles);
    }
    false
}

pub fn is_off(present: AdaptiveBoolean) -> bool
    ensures { result ≡ is_off present }
{
    present == AdaptiveBoolean::Off
}

pub fn is_usable(
    sb128: u8,
    max_width: i32,
    max_height: i32,
    level: u8,
    tier: u8,
    present: AdaptiveBoolean,
    info: &[u8],
    cols: &[u16],
    rows: &[u16],
) -> bool
    requires { (9 ≤ length info.now) × (65 ≤ length cols.now) × (65 ≤ length rows.now) }
    ensures { result ≡ usable (seq_in sb128 max_width max_height level tier present (buffers info.now cols.now rows.now)) }
{
    let known = (sb128 <= 2)
        & is_extent(max_width)
        & is_extent(max_height)
        & (level <= 31)
        & (tier <= 1);
    if is_off(present) {
        return known;
    }
    let across = usable_tiles(info[4], info[3], cols);
    let down = usable_tiles(info[8], info[7], rows);
    known & (across & down)
}
