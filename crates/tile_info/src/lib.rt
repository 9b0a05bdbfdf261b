// The tile layout of a frame.
#![tactic(auto)]

ghost use Rattle.std.specs.Prelude.{◌≡◌, true, replicate};
ghost use Rattle.answers.specs.declared.Answer.TheVariants.{InvalidTileInfo};
ghost use Rattle.getbits.specs.Bits.{settled, look_at, get_flag};
ghost use Rattle.getbits.specs.Chain.{pick};
ghost use Rattle.tile_layout.specs.Limits.{args_of, in_domain, sbw, sbh, width_limit};
ghost use Rattle.tile_layout.specs.Layout.{row_limit, uniform_layout, non_uniform_layout, parse_tile_info};
ghost use Rattle.tile_layout.specs.Demand3.{Demand3};
ghost use Rattle.tile_layout.specs.Cleared.{ReadOver};
ghost use Rattle.flat.specs.Layout.{buffers, has_room, put_layout, starts_in, layout_in};
ghost use Rattle.tile_info.specs.Inner.{Known, SizedInto};
ghost use Rattle.tile_info.specs.Into.{read_into, parse_tile_info_into, layout_left};

use answers::{Answer, is_refusal};
use flat::{has_room, put_layout_bytes, put_starts, put_tile_info, starts_in, tile_info_of};
use getbits::{Place, get_bit, look_ahead, read_bits};
use superblocks::FrameSb;
use tile_layout::{TileArgs, TileInfo, TileRead, in_domain, tile_args};

mod limits;
mod nonuniform;
mod uniform;

use limits::{FrameLimits, frame_limits};
use nonuniform::{max_tile_height_sb, read_tiles};
use uniform::{read_log2, uniform_starts};

// What the sizes of a non-uniform layout fill, and the most that one may be.
#[derive(Clone, Copy)]
pub struct SizeBounds {
    pub total: FrameSb,
    pub limit: FrameSb,
}

fn no_bounds() -> SizeBounds
    ensures { (result.total.0 ≡ 0) × (result.limit.0 ≡ 0) }
{
    SizeBounds {
        total: FrameSb::none(),
        limit: FrameSb::none(),
    }
}

// Of the columns. Outside the domain both are 0.
pub fn col_bounds(a: TileArgs) -> SizeBounds
    ensures { (result.total.0 ≡ pick (in_domain a) (sbw a) 0) × (result.limit.0 ≡ pick (in_domain a) (width_limit a) 0) }
{
    if in_domain(a) {
        let k = frame_limits(a);
        return SizeBounds {
            total: k.sbw,
            limit: k.max_tile_width_sb,
        };
    }
    no_bounds()
}

// Of the rows, beside a column of `widest_tile`.
pub fn row_bounds(a: TileArgs, widest_tile: FrameSb) -> SizeBounds
    ensures { (result.total.0 ≡ pick (in_domain a) (sbh a) 0) × (result.limit.0 ≡ pick (in_domain a) (row_limit a widest_tile.0) 0) }
{
    if in_domain(a) {
        let k = frame_limits(a);
        return SizeBounds {
            total: k.sbh,
            limit: max_tile_height_sb(a, k, widest_tile),
        };
    }
    no_bounds()
}

// The answer of a reading into lent buffers, and the place after it.
#[derive(Clone, Copy)]
pub struct TileOutcome {
    pub answer: Answer,
    pub next: Place,
}

// The uniform rule. `word` has the bits from the flag on, which are 13 at most.
fn uniform_layout(
    s: &[u8],
    p: Place,
    word: u32,
    a: TileArgs,
    k: FrameLimits,
    info: &mut [u8],
    cols: &mut [u16],
    rows: &mut [u16],
) -> Place
    requires in_the_domain { in_domain a ≡ true }
    requires known { Known a k }
    requires word_value { word ≡ look_at s.now p 32 }
    requires room { has_room (buffers info.old cols.old rows.old) ≡ true }
    ensures { let before = buffers info.old cols.old rows.old in
        let after = buffers info.new cols.new rows.new in
        let z = uniform_layout s.now (get_flag s.now p).next a in
        (result ≡ z.next) × (after ≡ put_layout z.info before) }
{
    let c = read_log2(word, 1, k.min_log2_cols, k.max_log2_cols);
    let min_log2_rows = k.min_log2_tiles.saturating_sub(c.log2);
    let r = read_log2(word, c.used, min_log2_rows, k.max_log2_rows);
    let n_cols = uniform_starts(&mut *cols, a, k.pair, a.width, k.sbw, c.log2);
    let n_rows = uniform_starts(&mut *rows, a, k.pair, a.height, k.sbh, r.log2);
    put_layout_bytes(
        &mut *info,
        true,
        k.min_log2_cols,
        k.max_log2_cols,
        c.log2,
        n_cols,
        min_log2_rows,
        k.max_log2_rows,
        r.log2,
        n_rows,
    );
    let behind = read_bits(s, p, r.used);
    behind.next
}

fn invalid_tile_info(next: Place) -> TileOutcome
    ensures { result ≡ record { answer = InvalidTileInfo; next = next } }
{
    TileOutcome {
        answer: Answer::InvalidTileInfo,
        next,
    }
}

// The non-uniform rule, from behind the flag. After a refusal the starts are of no use.
fn read_nonuniform(
    s: &[u8],
    p: Place,
    a: TileArgs,
    k: FrameLimits,
    info: &mut [u8],
    cols: &mut [u16],
    rows: &mut [u16],
) -> TileOutcome
    requires in_the_domain { in_domain a ≡ true }
    requires known { Known a k }
    requires room { has_room (buffers info.old cols.old rows.old) ≡ true }
    ensures { let before = buffers info.old cols.old rows.old in
        let after = buffers info.new cols.new rows.new in
        SizedInto (non_uniform_layout s.now p (layout_in before) a) before result after }
{
    let c = read_tiles(s, p, &mut *cols, k.sbw, k.max_tile_width_sb);
    if c.short {
        return invalid_tile_info(c.next);
    }
    let max_height = max_tile_height_sb(a, k, c.widest);
    let r = read_tiles(s, c.next, &mut *rows, k.sbh, max_height);
    if r.short {
        return invalid_tile_info(r.next);
    }
    let min_log2_rows = info[5];
    put_layout_bytes(
        &mut *info,
        false,
        k.min_log2_cols,
        k.max_log2_cols,
        c.log2,
        c.tiles,
        min_log2_rows,
        k.max_log2_rows,
        r.log2,
        r.tiles,
    );
    TileOutcome {
        answer: Answer::Accepted,
        next: r.next,
    }
}

// The starts, if they are needed.
fn old_starts(starts: &[u16], needed: bool) -> [u16; 65]
    ensures { result ≡ pick needed (starts_in starts.now) (replicate 65 0) }
{
    if needed {
        return starts_in(starts);
    }
    [0u16; 65]
}

// The same, and a refusal keeps the buffers. With at most 64 superblocks across and down none is refused, and there is nothing to keep.
fn nonuniform_layout(
    s: &[u8],
    p: Place,
    a: TileArgs,
    k: FrameLimits,
    info: &mut [u8],
    cols: &mut [u16],
    rows: &mut [u16],
) -> TileOutcome
    requires in_the_domain { in_domain a ≡ true }
    requires known { Known a k }
    requires room { has_room (buffers info.old cols.old rows.old) ≡ true }
    ensures { let before = buffers info.old cols.old rows.old in
        let after = buffers info.new cols.new rows.new in
        (result, after) ≡ read_into (non_uniform_layout s.now p (layout_in before) a) before }
{
    let may_refuse = !(k.sbw.at_most_64() & k.sbh.at_most_64());
    let old_cols = old_starts(&*cols, may_refuse);
    let old_rows = old_starts(&*rows, may_refuse);
    let r = read_nonuniform(s, p, a, k, &mut *info, &mut *cols, &mut *rows);
    if is_refusal(r.answer) {
        put_starts(&mut *cols, &old_cols);
        put_starts(&mut *rows, &old_rows);
    }
    r
}

// The flag, and the layout by its rule.
fn read_layout(
    s: &[u8],
    p: Place,
    a: TileArgs,
    info: &mut [u8],
    cols: &mut [u16],
    rows: &mut [u16],
) -> TileOutcome
    requires in_the_domain { in_domain a ≡ true }
    requires room { has_room (buffers info.old cols.old rows.old) ≡ true }
    ensures { let before = buffers info.old cols.old rows.old in
        let after = buffers info.new cols.new rows.new in
        (result, after) ≡ read_into (parse_tile_info s.now p (layout_in before) a) before }
{
    let k = frame_limits(a);
    let word = look_ahead(s, p, 32);
    if 0x8000_0000 <= word {
        let next = uniform_layout(s, p, word, a, k, &mut *info, &mut *cols, &mut *rows);
        return TileOutcome {
            answer: Answer::Accepted,
            next,
        };
    }
    let uniform = get_bit(s, p);
    nonuniform_layout(s, uniform.next, a, k, &mut *info, &mut *cols, &mut *rows)
}

// A refusal that uses no bit.
fn unread(s: &[u8], p: Place, answer: Answer) -> TileOutcome
    ensures { result ≡ record { answer = answer; next = settled s.now p } }
{
    let here = read_bits(s, p, 0);
    TileOutcome {
        answer,
        next: here.next,
    }
}

// parse_tile_info into lent buffers: nine bytes, and the starts of the columns and of the rows.
pub fn parse_tile_info_into(
    s: &[u8],
    p: Place,
    info: &mut [u8],
    cols: &mut [u16],
    rows: &mut [u16],
    sbmul: i32,
    sb128: u8,
    seq_sb128: u8,
    w: i32,
    h: i32,
    level: u8,
    tier: u8,
) -> TileOutcome
    ensures outcome { let before = buffers info.old cols.old rows.old in
        let after = buffers info.new cols.new rows.new in
        (result, after) ≡ parse_tile_info_into s.now p before (args_of sbmul sb128 seq_sb128 w h level tier) }
    ensures as_by_value { let before = buffers info.old cols.old rows.old in
        let after = buffers info.new cols.new rows.new in
        (has_room before ≡ true
        → layout_left result after ≡ parse_tile_info s.now p (layout_in before) (args_of sbmul sb128 seq_sb128 w h level tier)) }
    ensures demand3 { let before = buffers info.old cols.old rows.old in
        let after = buffers info.new cols.new rows.new in
        let args = args_of sbmul sb128 seq_sb128 w h level tier in
        (has_room before ≡ true → in_domain args ≡ true → Demand3 s.now p args (layout_left result after)) }
    ensures read_over { let before = buffers info.old cols.old rows.old in
        let after = buffers info.new cols.new rows.new in
        ReadOver (layout_in before) (layout_left result after) }
{
    if !has_room(&*info, &*cols, &*rows) {
        return TileOutcome {
            answer: Answer::ShortBuffer,
            next: p,
        };
    }
    let a = tile_args(sbmul, sb128, seq_sb128, w, h, level, tier);
    if in_domain(a) {
        return read_layout(s, p, a, &mut *info, &mut *cols, &mut *rows);
    }
    unread(s, p, Answer::WrongArguments)
}

pub fn parse_tile_info(
    s: &[u8],
    p: Place,
    thdr: TileInfo,
    sbmul: i32,
    sb128: u8,
    seq_sb128: u8,
    w: i32,
    h: i32,
    level: u8,
    tier: u8,
) -> TileRead
    ensures value { result ≡ parse_tile_info s.now p thdr (args_of sbmul sb128 seq_sb128 w h level tier) }
    ensures demand3 { in_domain (args_of sbmul sb128 seq_sb128 w h level tier) ≡ true
        → Demand3 s.now p (args_of sbmul sb128 seq_sb128 w h level tier) result }
    ensures read_over { ReadOver thdr result }
{
    let mut info = [0u8; 9];
    let mut cols = [0u16; 65];
    let mut rows = [0u16; 65];
    put_tile_info(thdr, &mut info, &mut cols, &mut rows);
    let r = parse_tile_info_into(
        s, p, &mut info, &mut cols, &mut rows, sbmul, sb128, seq_sb128, w, h, level, tier,
    );
    let info = tile_info_of(&info, &cols, &rows);
    TileRead {
        answer: r.answer,
        info,
        next: r.next,
    }
}
