// The same over a lent buffer: what does not fit is dropped, and each function answers the place behind what it put.
ghost use Rattle.std.specs.Prelude.{◌+◌, ◌*◌, length};
ghost use Rattle.program.specs.Output.{accepted_text, refused_text, ok_text, refusal_text};
ghost use Rattle.text.specs.Put.{Put};

use getbits::Place;
use text::Text;
use text::slices::{put_line, put_word};

#[tactic(auto, unfolding(crate::specs::Output::accepted_text, text::specs::Text::word))]
pub fn put_accepted(out: &mut [u8], at: usize, uniform: bool, xs: &[u64]) -> usize
    ensures { Put (4 + (21 * length xs.now + 1)) out.old at (accepted_text uniform xs.now) out.new result }
{
    put_line(out, at, if uniform { b"ok U" } else { b"ok N" }, xs)
}

pub fn put_refused(out: &mut [u8], at: usize, n: u32) -> usize
    ensures { Put 24 out.old at (refused_text n) out.new result }
{
    let mut text: Text<24> = Text::new();
    crate::put_refused(&mut text, n);
    put_word(out, at, text.as_slice())
}

// An accepted record's first line.
pub fn put_ok(out: &mut [u8], next: Place) -> usize
    ensures { Put 45 out.old 0 (ok_text next) out.new result }
{
    let mut text: Text<45> = Text::new();
    crate::put_ok(&mut text, next);
    put_word(out, 0, text.as_slice())
}

// A refused record's line.
pub fn put_refusal(out: &mut [u8], n: u32, next: Place) -> usize
    ensures { Put 66 out.old 0 (refusal_text n next) out.new result }
{
    let mut text: Text<66> = Text::new();
    crate::put_refusal(&mut text, n, next);
    put_word(out, 0, text.as_slice())
}
