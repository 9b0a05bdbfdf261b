// Reads a byte, 0 or 1, and the input of tile or of frame, and prints an SVG picture of the layout's tiles, cut at the frame's edge.
#![tactic(auto)]

ghost use Rattle.std.specs.Prelude.{◌≡◌, ◌≤◌, [], length};
ghost use Rattle.text.specs.Text.{put};
ghost use Rattle.draw.specs.Print.{arguments_text, frame_text, read_text, tile_draw_text, frame_draw_text, chosen_draw_text, draw_text};

use answers::{is_refusal, number};
use drawing::{put_drawing, put_marked, put_refusal};
use frame_layout::FrameHeader;
use frame_request::{SequenceArgs, frame_request, sequence_args};
use getbits::Place;
use lent::position_of;
use program::{byte_at, read_full, report_written, two_at};
use std::io;
use text::Text;
use tile_layout::not_below_0;
use tile_request::{samples, tile_request};

// The arguments of what tile reads.
#[tactic(auto, unfolding(crate::specs::Print::arguments_text, text::specs::Text::word))]
fn put_arguments<const N: usize>(out: &mut Text<N>, s: &[u8])
    ensures text { out.new ≡ put N out.old (arguments_text s.now) }
    ensures size { length (arguments_text s.now) ≤ 147 }
{
    if s.len() < 8 {
        return out.push_word(b"fewer than 8 bytes");
    }
    let xs = [
        two_at(s, 0) as u64 + 1,
        two_at(s, 2) as u64 + 1,
        u64::from(byte_at(s, 4)),
        u64::from(byte_at(s, 5)),
        u64::from(byte_at(s, 6)),
        u64::from(byte_at(s, 7)),
    ];
    put_marked(out, b"# x #, codes # #, level #, tier #", &xs);
}

// Those of a frame.
#[tactic(auto, unfolding(text::specs::Text::word))]
fn put_frame<const N: usize>(out: &mut Text<N>, hdr: FrameHeader, q: SequenceArgs)
    ensures text { out.new ≡ put N out.old (frame_text hdr q) }
    ensures size { length (frame_text hdr q) ≤ 147 }
{
    let xs = [
        u64::from(not_below_0(hdr.width)),
        u64::from(not_below_0(hdr.height)),
        u64::from(hdr.sb128),
        u64::from(q.seq_sb128),
        u64::from(q.level),
        u64::from(q.tier),
    ];
    put_marked(out, b"# x #, codes # #, level #, tier #", &xs);
}

// What was read: U or N, bits used, reader error.
#[tactic(auto, unfolding(crate::specs::Print::read_text, text::specs::Text::word))]
fn put_read<const N: usize>(out: &mut Text<N>, uniform: bool, next: Place)
    ensures text { out.new ≡ put N out.old (read_text uniform next) }
    ensures size { length (read_text uniform next) ≤ 58 }
{
    let xs = [position_of(next) as u64, u64::from(next.error)];
    if uniform {
        return put_marked(out, b", U, # bits, error #", &xs);
    }
    put_marked(out, b", N, # bits, error #", &xs);
}

#[tactic(auto, using(text::proofs::Puts::puts, text::proofs::Puts::put_fits), unfolding(crate::specs::Print::tile_draw_text, getbits::specs::Chain::then))]
fn put_tile_drawing<const N: usize>(out: &mut Text<N>, s: &[u8])
    ensures text { out.new ≡ put N out.old (tile_draw_text s.now) }
    ensures size { length (tile_draw_text s.now) ≤ 2014410 }
{
    let r = tile_request(s);
    let mut title: Text<205> = Text::new();
    put_arguments(&mut title, s);
    if is_refusal(r.answer) {
        return put_refusal(out, title.as_slice(), number(r.answer));
    }
    put_read(&mut title, r.info.uniform, r.next);
    let w = samples(s, 0);
    let h = samples(s, 2);
    put_drawing(out, title.as_slice(), r.info, byte_at(s, 4), w, h);
}

#[tactic(auto, using(text::proofs::Puts::puts, text::proofs::Puts::put_fits), unfolding(crate::specs::Print::frame_draw_text, getbits::specs::Chain::then, text::specs::Text::word))]
fn put_frame_drawing<const N: usize>(out: &mut Text<N>, s: &[u8])
    ensures text { out.new ≡ put N out.old (frame_draw_text s.now) }
    ensures size { length (frame_draw_text s.now) ≤ 2014410 }
{
    let r = frame_request(s);
    if is_refusal(r.answer) {
        return put_refusal(out, b"frame", number(r.answer));
    }
    let hdr = r.hdr;
    let tiling = hdr.tiling;
    let mut title: Text<205> = Text::new();
    put_frame(&mut title, hdr, sequence_args(s));
    put_read(&mut title, tiling.uniform, r.next);
    put_drawing(
        out,
        title.as_slice(),
        tiling,
        hdr.sb128,
        hdr.width,
        hdr.height,
    );
}

// What is printed of the bytes s behind the first byte.
#[tactic(auto, unfolding(crate::specs::Print::chosen_draw_text, text::specs::Text::word))]
fn put_rest<const N: usize>(out: &mut Text<N>, first: u8, s: &[u8])
    ensures text { out.new ≡ put N out.old (chosen_draw_text first s.now) }
    ensures size { length (chosen_draw_text first s.now) ≤ 2014410 }
{
    match first {
        0 => put_tile_drawing(out, s),
        1 => put_frame_drawing(out, s),
        _ => put_refusal(out, b"no first byte of 0 or 1", 4),
    }
}

// From the input's bytes to the output's, in a text that is too large to be handed back by value.
#[tactic(auto, using(text::proofs::Puts::put_fits, std::proofs::lemmas::Grind::common_steps), unfolding(crate::specs::Print::draw_text, text::specs::Text::word))]
fn draw_text(input: &[u8], out: &mut Text<2014410>)
    ensures text { out.new ≡ put 2014410 out.old (draw_text input.now) }
    ensures size { length (draw_text input.now) ≤ 2014410 }
{
    match input {
        [first, rest @ ..] => put_rest(out, *first, rest),
        [] => put_refusal(out, b"no first byte of 0 or 1", 4),
    }
}

fn main(rt: HostRuntime) -> io::Result<()> {
    let mut input = [0u8; 65538];
    let n = read_full(&mut rt.reader(), &mut input)?;
    let mut out: Text<2014410> = Text::new();
    draw_text(&input[..n], &mut out);
    report_written(&rt, rt.write_all(out.as_slice()).is_ok());
    Ok(())
}
