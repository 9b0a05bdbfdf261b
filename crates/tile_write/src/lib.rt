// A tile layout written as bits into a lent buffer.
#![tactic(auto)]

ghost use Rattle.std.specs.Prelude.{◌++◌, ◌≡◌, ◌≤◌, length, take, drop};
ghost use Rattle.tile_layout.specs.Limits.{args_of};
ghost use Rattle.layout_writing.specs.Called.{WritingOf};
ghost use Rattle.layout_writing.specs.Write.{reads_as, refusal, write_tile_info};

use answers::{Answer, is_refusal};
use getbits::Place;
use layout_row::layout_row;
use layout_writing::Written;
use tile_info::parse_tile_info;
use tile_layout::{TileInfo, TileRead, in_domain, no_tile_info, tile_args};

// Is a reading accepted without error, and gives t?
fn reads_as(r: TileRead, t: TileInfo) -> bool
    ensures { result ≡ reads_as r t }
{
    !is_refusal(r.answer) & !r.next.error & (r.info == t)
}

// The first n bytes, at the front of the buffer.
fn put_bytes(out: &mut [u8], bytes: &[u8], n: usize)
    requires { (n ≤ length out.old) × (n ≤ length bytes.now) }
    ensures { out.new ≡ take n bytes.now ++ drop n out.old }
{
    out[..n].copy_from_slice(&bytes[..n]);
}

fn refused(answer: Answer) -> Written
    ensures { result ≡ refusal answer }
{
    Written { answer, bits: 0 }
}

pub fn write_tile_info(
    sbmul: i32,
    sb128: u8,
    seq_sb128: u8,
    w: i32,
    h: i32,
    level: u8,
    tier: u8,
    t: TileInfo,
    out: &mut [u8],
) -> Written
    ensures out_after { (result, out.new) ≡ write_tile_info (args_of sbmul sb128 seq_sb128 w h level tier) t out.old }
    ensures writing { WritingOf (args_of sbmul sb128 seq_sb128 w h level tier) t out.old result out.new }
{
    let a = tile_args(sbmul, sb128, seq_sb128, w, h, level, tier);
    if !in_domain(a) {
        return refused(Answer::WrongArguments);
    }
    let row = layout_row(a, t);
    let start = Place {
        byte: 0,
        used: 0,
        error: false,
    };
    let r = parse_tile_info(
        &row.bytes,
        start,
        no_tile_info(),
        sbmul,
        sb128,
        seq_sb128,
        w,
        h,
        level,
        tier,
    );
    if !reads_as(r, t) {
        return refused(Answer::NoSuchLayout);
    }
    let n = ((row.bits + 7) / 8) as usize;
    if out.len() < n {
        return refused(Answer::ShortBuffer);
    }
    put_bytes(&mut *out, &row.bytes, n);
    Written {
        answer: Answer::Accepted,
        bits: row.bits,
    }
}
