// Reads a pixel layout's number and film grain parameters from standard input, and prints the parameters.
#![tactic(auto)]

ghost use Rattle.std.specs.Prelude.{◌≡◌, ◌≤◌, length};
ghost use Rattle.text.specs.Text.{put};
ghost use Rattle.grain.specs.Print.{grain_text, grain_accepted_text, grain_read_text, grain_input_text};
ghost use Rattle.grain.specs.Request.{is_grain_request, grain_request};

use answers::{Answer, is_refusal, number};
use film_grain::{FilmGrainData, FilmGrainRead, no_film_grain, parse_film_grain_data};
use flat::put_row;
use flat_grain::put_film_grain;
use getbits::Place;
use program::{put_ok, put_refusal, read_full, report_written};
use seq_fields::layout_of;
use std::io;
use text::Text;

fn is_request(s: &[u8]) -> bool
    ensures { result ≡ is_grain_request s.now }
{
    if s.len() < 1 {
        return false;
    }
    (s.len() <= 65536) & (s[0] <= 3)
}

fn request(s: &[u8]) -> FilmGrainRead
    ensures { result ≡ grain_request s.now }
{
    let start = Place {
        byte: 0,
        used: 0,
        error: false,
    };
    if is_request(s) {
        let layout = layout_of(s[0]);
        return parse_film_grain_data(&s[1..], start, layout);
    }
    let none = no_film_grain();
    FilmGrainRead {
        answer: Answer::WrongArguments,
        fgd: none,
        next: start,
    }
}

// The same numbers at a wider width.
fn widened(xs: [i16; 186]) -> [i64; 186]
    ensures { result ≡ xs }
{
    let mut wide = [0i64; 186];
    put_row(&mut wide, 0, &xs);
    wide
}

// The fields in the order of declaration: a name and its values.
fn put_grain<const N: usize>(out: &mut Text<N>, fgd: FilmGrainData)
    ensures text { out.new ≡ put N out.old (grain_text fgd) }
    ensures size { length (grain_text fgd) ≤ 12117 }
{
    let mut flat = [0i16; 186];
    put_film_grain(fgd, &mut flat);
    let xs = widened(flat);
    out.push_filled(
        b"chroma_scaling_from_luma #\n\
          num_points # # #\n\
          points\
          \x20# # # # # # # # # # # # # # # # # # # # # # # # # # # #\
          \x20# # # # # # # # # # # # # # # # # # # # # # # # # # # #\
          \x20# # # # # # # # # # # # # # # # # # # # # # # # # # # #\n\
          scaling_shift #\n\
          ar_coeff_lag #\n\
          ar_coeffs\
          \x20# # # # # # # # # # # # # # # # # # # # # # # # # # # #\
          \x20# # # # # # # # # # # # # # # # # # # # # # # # # # # #\
          \x20# # # # # # # # # # # # # # # # # # # # # # # # # # # #\n\
          ar_coeff_shift #\n\
          grain_scale_shift #\n\
          uv_mult # #\n\
          uv_luma_mult # #\n\
          uv_offset # #\n\
          overlap_flag #\n\
          clip_to_restricted_range #\n\
          mc_identity #\n\
          block_size #\n",
        &xs,
        0,
    );
}

#[tactic(auto, using(text::proofs::Puts::puts), unfolding(crate::specs::Print::grain_accepted_text))]
fn put_grain_accepted<const N: usize>(out: &mut Text<N>, fgd: FilmGrainData, next: Place)
    ensures text { out.new ≡ put N out.old (grain_accepted_text fgd next) }
    ensures size { length (grain_accepted_text fgd next) ≤ 12162 }
{
    put_ok(out, next);
    put_grain(out, fgd);
}

#[tactic(auto, unfolding(crate::specs::Print::grain_read_text))]
fn put_read<const N: usize>(out: &mut Text<N>, r: &FilmGrainRead)
    ensures text { out.new ≡ put N out.old (grain_read_text r.now) }
    ensures size { length (grain_read_text r.now) ≤ 12162 }
{
    if is_refusal(r.answer) {
        put_refusal(out, number(r.answer), r.next);
    } else {
        put_grain_accepted(out, r.fgd, r.next);
    }
}

// From the input's bytes to the output's.
#[tactic(auto, using(text::proofs::Puts::put_fits), unfolding(crate::specs::Print::grain_input_text))]
fn grain_text(input: &[u8]) -> Text<12162>
    ensures { result ≡ grain_input_text input.now }
{
    let mut out = Text::new();
    put_read(&mut out, &request(input));
    out
}

fn main(rt: HostRuntime) -> io::Result<()> {
    let mut input = [0u8; 65537];
    let n = read_full(&mut rt.reader(), &mut input)?;
    let out = grain_text(&input[..n]);
    report_written(&rt, rt.write_all(out.as_slice()).is_ok());
    Ok(())
}
