// A text in fixed memory, and what the programs print into it. What does not fit is dropped.
#![tactic(auto, using(crate::proofs::Puts::puts))]

ghost use Rattle.std.specs.Prelude.{◌≡◌, [], ◌∷◌, ◌++◌, ◌+◌, ◌*◌, ◌<◌, ◌≤◌, List, ℕ, length, get_or, take, eqb, nat_abs, pos};
ghost use Rattle.getbits.specs.Chain.{pick};
ghost use Rattle.text.specs.Text.{put, blank, decimal, mark, signed, nexts, row, filled, line};
ghost use Rattle.text.specs.Text.{digit as Text·digit};

use std::marker::Model;

pub mod slices;

/// A text of at most `N` bytes.
#[derive(Drop)]
pub struct Text<const N: usize> {
    bytes: [u8; N],
    len: usize,
}

// Clauses see the bytes that were put so far.
impl<const N: usize> Model for Text<N> {
    ghost Value = { List ℕ };

    ghost view = { λ t. take t.len t.bytes };

    ghost invariant = { λ t. t.len ≤ N };
}

impl<const N: usize> Text<N> {
    pub fn new() -> Self
        ensures { result ≡ [] }
    {
        Text {
            bytes: [0; N],
            len: 0,
        }
    }

    pub fn as_slice(&self) -> &[u8]
        ensures { result.now ≡ self.now }
    {
        &self.bytes[..self.len]
    }

    pub fn push(&mut self, b: u8)
        ensures { self.new ≡ put N self.old (b ∷ []) }
    {
        if self.len < N {
            self.bytes[self.len] = b;
            self.len += 1;
        }
    }

    pub fn push_word(&mut self, word: &[u8])
        ensures { self.new ≡ put N self.old word.now }
    {
        for &b in word {
            self.push(b);
        }
    }

    /// A number in decimal.
    #[tactic(auto, using(crate::proofs::Puts::puts, crate::proofs::Digits::small, crate::proofs::Digits::large))]
    pub fn push_number(&mut self, n: u64)
        ensures text { self.new ≡ put N self.old (decimal n) }
        ensures size { length (decimal n) ≤ 20 }
    {
        if n >= 10 {
            self.push_number(n / 10);
        }
        self.push(digit(n % 10));
    }

    #[tactic(auto, using(crate::proofs::Puts::puts, crate::proofs::Rows::signed_negative, crate::proofs::Rows::signed_other))]
    pub fn push_signed(&mut self, n: i64)
        ensures text { self.new ≡ put N self.old (signed n) }
        ensures size { length (signed n) ≤ 21 }
    {
        if n < 0 {
            self.push(b'-');
        }
        self.push_number(n.unsigned_abs());
    }

    // A blank and a number.
    fn push_next(&mut self, n: u64)
        ensures text { self.new ≡ put N self.old (blank ∷ decimal n) }
        ensures size { length (blank ∷ decimal n) ≤ 21 }
    {
        self.push(b' ');
        self.push_number(n);
    }

    // Numbers, a blank in front of each.
    #[tactic(auto, using(crate::proofs::Rows::rows), unfolding(crate::specs::Text::nexts))]
    fn push_nexts(&mut self, xs: &[u64])
        ensures text { self.new ≡ put N self.old (nexts xs.now) }
        ensures size { length (nexts xs.now) ≤ 21 * length xs.now }
    {
        for &x in xs {
            self.push_next(x);
        }
    }

    /// A line: a word, then numbers, a blank in front of each.
    pub fn push_line(&mut self, word: &[u8], xs: &[u64])
        ensures text { self.new ≡ put N self.old (line (word.now ++ nexts xs.now)) }
        ensures size { length (line (word.now ++ nexts xs.now)) ≤ length word.now + (21 * length xs.now + 1) }
    {
        self.push_word(word);
        self.push_nexts(xs);
        self.push(b'\n');
    }

    /// A number, and a blank in front of it unless it is the first.
    pub fn push_item(&mut self, n: u64, first: bool)
        ensures text { self.new ≡ put N self.old (pick first (decimal n) (blank ∷ decimal n)) }
        ensures size { length (pick first (decimal n) (blank ∷ decimal n)) ≤ 21 }
    {
        if first {
            self.push_number(n);
        } else {
            self.push_next(n);
        }
    }

    // Numbers with one blank between.
    #[tactic(auto, using(crate::proofs::Rows::rows), unfolding(crate::specs::Text::nexts))]
    fn push_items(&mut self, xs: &[u16])
        ensures text { self.new ≡ put N self.old (row xs.now) }
        ensures size { length (row xs.now) ≤ 21 * length xs.now }
    {
        if let [first, rest @ ..] = xs {
            self.push_number(u64::from(*first));
            for &x in rest {
                self.push_next(u64::from(x));
            }
        }
    }

    /// A line: the first `n` of some numbers with one blank between.
    #[tactic(auto, using(crate::proofs::Puts::puts, crate::proofs::Rows::take_min))]
    pub fn push_row(&mut self, xs: &[u16], n: usize)
        ensures text { self.new ≡ put N self.old (line (row (take n xs.now))) }
        ensures size { length (line (row (take n xs.now))) ≤ 21 * n + 1 }
    {
        self.push_items(&xs[..n.min(xs.len())]);
        self.push(b'\n');
    }

    /// A template with its # replaced by the numbers from the `first` on; 0 where there is none.
    pub fn push_filled(&mut self, template: &[u8], xs: &[i64], first: usize)
        ensures text { self.new ≡ put N self.old (filled template.now xs.now first) }
        ensures size { length (filled template.now xs.now first) ≤ 21 * length template.now }
    {
        let mut next = first;
        for &c in template {
            if c == b'#' {
                self.push_signed(number_at(xs, next));
                next = next.saturating_add(1);
            } else {
                self.push(c);
            }
        }
    }
}

fn digit(d: u64) -> u8
    requires { d < 10 }
    ensures { result ≡ Text·digit d }
{
    48 + d as u8
}

// The number at i, and 0 where there is none.
fn number_at(xs: &[i64], i: usize) -> i64
    ensures { result ≡ get_or xs.now i (pos 0) }
{
    xs.get(i).copied().unwrap_or(0)
}
