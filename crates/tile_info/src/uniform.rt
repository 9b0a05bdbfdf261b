// The uniform rule.
ghost use Rattle.std.specs.Prelude.{◌≡◌, true, List, [], ◌∷◌, ◌++◌, ℕ, ◌+◌, ◌*◌, ◌≤◌, min, length, drop};
ghost use Rattle.getbits.specs.Bits.{read_bits, look_at};
ghost use Rattle.getbits.specs.declared.Place.{Place};
ghost use Rattle.tile_layout.specs.Limits.{superblocks, in_domain};
ghost use Rattle.tile_layout.specs.Layout.{tabulate, padded, read_log2, uniform_count, uniform_edges};
ghost use Rattle.superblocks.specs.Counts.{multiplier_of};
ghost use Rattle.tile_info.specs.Inner.{Coded};

use flat::clear_starts;
use superblocks::{FrameSb, Pair, SeqSb, Split, even_split};
use tile_layout::TileArgs;

// A logarithm, and how many bits of the word are used behind it.
#[derive(Clone, Copy)]
pub struct Log2 {
    pub log2: u8,
    pub used: u32,
}

// Each one bit of a word raises the logarithm until its maximum, from behind the bits used.
pub fn read_log2(word: u32, used: u32, least: u8, most: u8) -> Log2
    requires { (least ≤ 6) × (most ≤ 6) × (used ≤ 8) }
    ensures reads { (s : List ℕ) (p : Place) → word ≡ look_at s p 32 → let z = read_log2 s (read_bits s p used).next least most in
        (result.log2 ≡ z.value) × ((read_bits s p result.used).next ≡ z.next) }
    ensures low { (result.log2 ≤ 6) × (result.used ≤ used + 7) }
{
    if most <= least {
        return Log2 { log2: least, used };
    }
    let ones = u32::leading_zeros(!(word << used));
    let left = (most - least) as u32;
    if ones < left {
        return Log2 {
            log2: least + ones as u8,
            used: used + ones + 1,
        };
    }
    Log2 {
        log2: most,
        used: used + left,
    }
}

// The starts of an even split, the closing entry, and zeros behind it.
fn fill(starts: &mut [u16], pair: Pair, split: Split, end: FrameSb)
    requires { (65 ≤ length starts.old) × (split.tiles.0 ≤ 64) × (split.tile.0 * split.tiles.0 + split.extra.0 ≤ 1024) × (end.0 ≤ 1024) }
    ensures { let multiplier = multiplier_of pair.frame_code pair.seq_code in
        starts.new ≡ padded (tabulate (λ i. multiplier * (split.tile.0 * i + min i split.extra.0)) 0 split.tiles.0 ++ (end.0 ∷ []))
        ++ drop 65 starts.old }
{
    clear_starts(&mut *starts);
    let mut sbx = SeqSb::none();
    let tiles = split.tiles.number();
    for i in 0..tiles {
        starts[i as usize] = sbx.in_frame(pair).number();
        sbx = sbx.plus(split.tile);
        if split.extra.has(i) {
            sbx = sbx.plus(SeqSb::one());
        }
    }
    starts[tiles as usize] = end.number();
}

// How many columns or rows there are along n samples, which are `end` superblocks of the frame. Their starts are stored.
pub fn uniform_starts(
    starts: &mut [u16],
    a: TileArgs,
    pair: Pair,
    n: u32,
    end: FrameSb,
    log2: u8,
) -> u8
    requires in_the_domain { in_domain a ≡ true }
    requires coded { Coded a pair }
    requires in_bounds { (65 ≤ length starts.old) × (1 ≤ n) × (n ≤ 65536) × (end.0 ≡ superblocks n a.frame_code) × (log2 ≤ 6) }
    ensures { (result ≡ uniform_count a n log2) × (starts.new ≡ padded (uniform_edges a n log2) ++ drop 65 starts.old) }
{
    let fsb = pair.full_count(n);
    let ssb = pair.seq_count(n);
    let split = even_split(fsb, ssb, log2);
    fill(&mut *starts, pair, split, end);
    split.tiles.number()
}
