// The same over a lent buffer, from a place on: what does not fit is dropped, and each function answers the place behind what it put.
ghost use Rattle.std.specs.Prelude.{◌≡◌, [], ◌∷◌, ◌++◌, ◌+◌, ◌*◌, length, take};
ghost use Rattle.getbits.specs.Chain.{pick};
ghost use Rattle.text.specs.Put.{Put};
ghost use Rattle.text.specs.Text.{blank, decimal, signed, nexts, row, filled, line};

use crate::{Text, number_at};

pub fn put_byte(out: &mut [u8], at: usize, b: u8) -> usize
    ensures { Put 1 out.old at (b ∷ []) out.new result }
{
    if at < out.len() {
        out[at] = b;
        return at + 1;
    }
    at
}

pub fn put_word(out: &mut [u8], at: usize, word: &[u8]) -> usize
    ensures { Put (length word.now) out.old at word.now out.new result }
{
    if at >= out.len() {
        return at;
    }
    let n = word.len().min(out.len() - at);
    out[at..at + n].copy_from_slice(&word[..n]);
    at + n
}

/// A number in decimal.
pub fn put_number(out: &mut [u8], at: usize, n: u64) -> usize
    ensures { Put 20 out.old at (decimal n) out.new result }
{
    let mut text: Text<20> = Text::new();
    text.push_number(n);
    put_word(out, at, text.as_slice())
}

pub fn put_signed(out: &mut [u8], at: usize, n: i64) -> usize
    ensures { Put 21 out.old at (signed n) out.new result }
{
    let mut text: Text<21> = Text::new();
    text.push_signed(n);
    put_word(out, at, text.as_slice())
}

/// A line: a word, then numbers, a blank in front of each.
pub fn put_line(out: &mut [u8], at: usize, word: &[u8], xs: &[u64]) -> usize
    ensures { Put (length word.now + (21 * length xs.now + 1)) out.old at
        (line (word.now ++ nexts xs.now)) out.new result }
{
    let mut next = put_word(out, at, word);
    for &x in xs {
        next = put_item(out, next, x, false);
    }
    put_byte(out, next, b'\n')
}

/// A number, and a blank in front of it unless it is the first.
pub fn put_item(out: &mut [u8], at: usize, n: u64, first: bool) -> usize
    ensures { Put 21 out.old at (pick first (decimal n) (blank ∷ decimal n)) out.new result }
{
    let mut text: Text<21> = Text::new();
    text.push_item(n, first);
    put_word(out, at, text.as_slice())
}

/// A line: the first `n` of some numbers with one blank between.
pub fn put_row(out: &mut [u8], at: usize, xs: &[u16], n: usize) -> usize
    ensures { Put (21 * n + 1) out.old at (line (row (take n xs.now))) out.new result }
{
    let mut end = at;
    for i in 0..n.min(xs.len()) {
        end = put_item(out, end, u64::from(xs[i]), i == 0);
    }
    put_byte(out, end, b'\n')
}

/// A template with its # replaced by the numbers from the `first` on; 0 where there is none.
pub fn put_filled(out: &mut [u8], at: usize, template: &[u8], xs: &[i64], first: usize) -> usize
    ensures { Put (21 * length template.now) out.old at
        (filled template.now xs.now first) out.new result }
{
    let mut end = at;
    let mut next = first;
    for &c in template {
        if c == b'#' {
            end = put_signed(out, end, number_at(xs, next));
            next = next.saturating_add(1);
        } else {
            end = put_byte(out, end, c);
        }
    }
    end
}
