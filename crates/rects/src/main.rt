// Reads a byte, 0 or 1, and the input of tile or of frame, and prints the rectangles of the layout's tiles, row by row, cut at the frame's edge.
#![tactic(auto)]

ghost use Rattle.std.specs.Prelude.{◌≡◌, ◌+◌, ◌*◌, ◌≤◌, length, take, drop};
ghost use Rattle.program.specs.Output.{chosen_text};
ghost use Rattle.rectangles.specs.Rectangles.{each};
ghost use Rattle.text.specs.Text.{put, row, line};
ghost use Rattle.tile_layout.specs.Limits.{unsigned};
ghost use Rattle.rects.specs.Print.{rectangles_text, read_text, tile_rects_text, frame_rects_text, rects_text};

use answers::{Answer, is_refusal, number};
use frame_request::frame_request;
use program::{byte_at, put_refused, read_full, report_written};
use rectangles::tile_rectangles;
use std::io;
use text::Text;
use tile_layout::TileInfo;
use tile_request::{samples, tile_request};

// The line of a tile: four numbers from the i-th on.
#[tactic(auto, using(text::proofs::Puts::puts, rectangles::proofs::Four::four, crate::proofs::Tiles::in_parts), unfolding(text::specs::Text::word))]
fn put_tile<const N: usize>(out: &mut Text<N>, xs: &[u32], i: usize)
    requires { i + 4 ≤ length xs.now }
    ensures text { out.new ≡ put N out.old (line (row (take 4 (drop i xs.now)))) }
    ensures size { length (line (row (take 4 (drop i xs.now)))) ≤ 84 }
{
    let rest = [
        u64::from(xs[i + 1]),
        u64::from(xs[i + 2]),
        u64::from(xs[i + 3]),
    ];
    out.push_number(u64::from(xs[i]));
    out.push_line(b"", &rest);
}

// The lines of n tiles.
fn put_tiles<const N: usize>(out: &mut Text<N>, xs: &[u32], n: usize)
    requires { 4 * n ≤ length xs.now }
    ensures text { out.new ≡ put N out.old (each n λ k. line (row (take 4 (drop (4 * k) xs.now)))) }
    ensures size { length (each n λ k. line (row (take 4 (drop (4 * k) xs.now)))) ≤ 84 * n }
{
    for k in 0..n {
        put_tile(out, xs, 4 * k);
    }
}

fn put_rectangles<const N: usize>(out: &mut Text<N>, t: TileInfo, sb128: u8, w: i32, h: i32)
    ensures text { out.new ≡ put N out.old (rectangles_text t «sb128» (unsigned w) (unsigned h)) }
    ensures size { length (rectangles_text t «sb128» (unsigned w) (unsigned h)) ≤ 344088 }
{
    let mut numbers = [0u32; 16384];
    let answer = tile_rectangles(t, sb128, w, h, &mut numbers);
    if is_refusal(answer) {
        return put_refused(out, number(answer));
    }
    let tiles = t.cols as usize * t.rows as usize;
    out.push_line(b"ok", &[tiles as u64]);
    put_tiles(out, &numbers, tiles);
}

#[tactic(auto, unfolding(crate::specs::Print::read_text))]
fn put_read<const N: usize>(
    out: &mut Text<N>,
    answer: Answer,
    t: TileInfo,
    sb128: u8,
    w: i32,
    h: i32,
)
    ensures text { out.new ≡ put N out.old (read_text answer t «sb128» (unsigned w) (unsigned h)) }
    ensures size { length (read_text answer t «sb128» (unsigned w) (unsigned h)) ≤ 344088 }
{
    if is_refusal(answer) {
        put_refused(out, number(answer));
    } else {
        put_rectangles(out, t, sb128, w, h);
    }
}

#[tactic(auto, unfolding(crate::specs::Print::tile_rects_text, getbits::specs::Chain::then))]
fn put_tile_rects<const N: usize>(out: &mut Text<N>, s: &[u8])
    ensures text { out.new ≡ put N out.old (tile_rects_text s.now) }
    ensures size { length (tile_rects_text s.now) ≤ 344088 }
{
    let r = tile_request(s);
    let w = samples(s, 0);
    let h = samples(s, 2);
    put_read(out, r.answer, r.info, byte_at(s, 4), w, h);
}

#[tactic(auto, unfolding(crate::specs::Print::frame_rects_text, getbits::specs::Chain::then))]
fn put_frame_rects<const N: usize>(out: &mut Text<N>, s: &[u8])
    ensures text { out.new ≡ put N out.old (frame_rects_text s.now) }
    ensures size { length (frame_rects_text s.now) ≤ 344088 }
{
    let r = frame_request(s);
    let hdr = r.hdr;
    put_read(out, r.answer, hdr.tiling, hdr.sb128, hdr.width, hdr.height);
}

// What is printed of the bytes s behind the first byte.
#[tactic(auto, unfolding(program::specs::Output::chosen_text))]
fn put_rest<const N: usize>(out: &mut Text<N>, first: u8, s: &[u8])
    ensures text { out.new ≡ put N out.old (chosen_text first (tile_rects_text s.now) (frame_rects_text s.now)) }
    ensures size { length (chosen_text first (tile_rects_text s.now) (frame_rects_text s.now)) ≤ 344088 }
{
    match first {
        0 => put_tile_rects(out, s),
        1 => put_frame_rects(out, s),
        _ => put_refused(out, 4),
    }
}

// From the input's bytes to the output's, in a text that is too large to be handed back by value.
#[tactic(auto, using(std::proofs::lemmas::Grind::common_steps), unfolding(crate::specs::Print::rects_text, program::specs::Output::either_text))]
fn rects_text(input: &[u8], out: &mut Text<344088>)
    ensures text { out.new ≡ put 344088 out.old (rects_text input.now) }
    ensures size { length (rects_text input.now) ≤ 344088 }
{
    match input {
        [first, rest @ ..] => put_rest(out, *first, rest),
        [] => put_refused(out, 4),
    }
}

fn main(rt: HostRuntime) -> io::Result<()> {
    let mut input = [0u8; 65538];
    let n = read_full(&mut rt.reader(), &mut input)?;
    let mut out: Text<344088> = Text::new();
    rects_text(&input[..n], &mut out);
    report_written(&rt, rt.write_all(out.as_slice()).is_ok());
    Ok(())
}
