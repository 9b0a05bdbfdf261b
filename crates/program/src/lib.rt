// What the programs share: numbers in their input, its limit, lines that they print alike, and what is said where the output can't be written.
#![tactic(auto)]

ghost use Rattle.std.specs.Prelude.{◌≡◌, ◌+◌, ◌*◌, ◌<◌, ◌≤◌, length, take, IfOk};
ghost use Rattle.std.specs.Io.KnownBytes.{Consumes, IsAtEnd};
ghost use Rattle.text.specs.Text.{put};
ghost use Rattle.program.specs.Input.{byte_at, two_at, is_input, IsPrefixLen};
ghost use Rattle.program.specs.Output.{accepted_text, refused_text, ok_text, refusal_text};

use getbits::Place;
use lent::position_of;
use std::io;
use std::io::Read;
use text::Text;

pub mod slices;

pub fn byte_at(s: &[u8], i: usize) -> u8
    ensures { result ≡ byte_at s.now i }
{
    s.get(i).copied().unwrap_or(0)
}

pub fn two_at(s: &[u8], i: usize) -> usize
    ensures { (result ≡ two_at s.now i) × (result < 65536) }
{
    if i >= s.len() {
        return 0;
    }
    usize::from(byte_at(s, i)) + 256 * usize::from(byte_at(s, i + 1))
}

pub fn is_input(s: &[u8]) -> bool
    ensures { result ≡ is_input s.now }
{
    s.len() <= 65536
}

#[tactic(auto, unfolding(crate::specs::Output::accepted_text, text::specs::Text::word))]
pub fn put_accepted<const N: usize>(out: &mut Text<N>, uniform: bool, xs: &[u64])
    ensures text { out.new ≡ put N out.old (accepted_text uniform xs.now) }
    ensures size { length (accepted_text uniform xs.now) ≤ 4 + (21 * length xs.now + 1) }
{
    out.push_line(if uniform { b"ok U" } else { b"ok N" }, xs);
}

#[tactic(auto, unfolding(crate::specs::Output::refused_text, text::specs::Text::word))]
pub fn put_refused<const N: usize>(out: &mut Text<N>, n: u32)
    ensures text { out.new ≡ put N out.old (refused_text n) }
    ensures size { length (refused_text n) ≤ 24 }
{
    out.push_line(b"no", &[u64::from(n)]);
}

// An accepted record's first line.
#[tactic(auto, unfolding(crate::specs::Output::ok_text, text::specs::Text::word))]
pub fn put_ok<const N: usize>(out: &mut Text<N>, next: Place)
    ensures text { out.new ≡ put N out.old (ok_text next) }
    ensures size { length (ok_text next) ≤ 45 }
{
    let xs = [position_of(next) as u64, u64::from(next.error)];
    out.push_line(b"ok", &xs);
}

// A refused record's line.
#[tactic(auto, unfolding(crate::specs::Output::refusal_text, text::specs::Text::word))]
pub fn put_refusal<const N: usize>(out: &mut Text<N>, n: u32, next: Place)
    ensures text { out.new ≡ put N out.old (refusal_text n next) }
    ensures size { length (refusal_text n next) ≤ 66 }
{
    if n == 4 {
        return put_refused(out, n);
    }
    let xs = [
        u64::from(n),
        position_of(next) as u64,
        u64::from(next.error),
    ];
    out.push_line(b"no", &xs);
}

// Reads until buf is full or the input ends, and returns how many bytes it put at buf's start.
pub fn read_full<R: Read>(input: &mut R, buf: &mut [u8]) -> io::Result<usize>
    ensures prefix_len { IfOk result (λ n. IsPrefixLen n buf.new) }
    ensures bytes { IfOk result (λ n. Consumes (R.remaining input.old) (R.remaining input.new) (take n buf.new)) }
    ensures end { IfOk result (λ n. n < length buf.new → IsAtEnd (R.remaining input.new)) }
{
    let mut done = 0;
    while done < buf.len() {
        let n = input.read(&mut buf[done..])?;
        if n == 0 {
            break;
        }
        done += n;
    }
    Ok(done)
}

// Where the output could not be written, says so on standard error. `written` says whether it was.
pub fn report_written<R: Eprint>(rt: &R, written: bool) -> bool
    ensures { result ≡ written }
{
    if written {
        return true;
    }
    rt.eprintln("the output could not be written").is_ok();
    false
}
