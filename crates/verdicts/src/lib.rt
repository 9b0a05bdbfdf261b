// Does a replayed case give the stored numbers? How many did?
#![tactic(auto)]

ghost use Rattle.std.specs.Prelude.{◌≡◌, ℕ, ℤ, ◌+◌, ◌-◌, ◌^◌, ◌<◌, min};
ghost use Rattle.std.specs.List.{list_all, zip};
ghost use Rattle.getbits.specs.Chain.{pick};
ghost use Rattle.getbits.specs.Bits.{signed_of};
ghost use Rattle.verdicts.specs.Rows.{stands, all_same, agreeing, AllSame, Tells};
ghost use Rattle.verdicts.specs.Counts.{one_more, replayed, agree};

// How many cases of an operation were replayed, and how many agree.
#[derive(Clone, Copy)]
pub struct Count {
    pub replayed: u32,
    pub agree: u32,
}

// The counts of each operation.
#[derive(Clone, Copy)]
pub struct Tally {
    pub counts: [Count; 21],
}

// The operation of a case, and whether it gives the stored numbers.
#[derive(Clone, Copy)]
pub struct Verdict {
    pub kind: usize,
    pub agrees: bool,
}

// A number from 2^31 up stands for itself less 2^32.
pub fn signed(n: u32) -> i32
    ensures { result ≡ signed_of 32 n }
{
    n.cast_signed()
}

// No number can be both one from 2^31 up and one below 0, so one of the two is meant.
fn same(ours: i64, stored: u32) -> bool
    ensures { result ≡ stands ours stored }
{
    (ours == i64::from(stored)) | (ours == i64::from(signed(stored)))
}

// Does each stored number stand for its own?
fn each_stands(ours: &[i64], stored: &[u32]) -> bool
    ensures { result ≡ list_all (λ (p : ℤ × ℕ). stands p.0 p.1) (zip ours.now stored.now) }
{
    ours.iter().zip(stored).all(|(x, n)| same(*x, *n))
}

// Are these the stored numbers?
fn all_same(ours: &[i64], stored: &[u32]) -> bool
    ensures equation { result ≡ all_same ours.now stored.now }
    ensures tells { Tells result (AllSame ours.now stored.now) }
{
    if ours.len() != stored.len() {
        return false;
    }
    each_stands(ours, stored)
}

// Are the first n of our numbers the first m that are stored? The lengths stand beside the rows: too few numbers do not agree.
pub fn agrees(ours: &[i64], n: usize, stored: &[u32], m: usize) -> bool
    ensures { result ≡ agreeing ours.now n stored.now m }
{
    if n <= ours.len() {
        if m <= stored.len() {
            return all_same(&ours[..n], &stored[..m]);
        }
    }
    false
}

// One case more, and one more that agrees if this one does; a count that is full stays as it is.
fn one_more(c: Count, agrees: bool) -> Count
    ensures replayed { (result.replayed ≡ min (c.replayed + 1) (2 ^ 32 - 1)) × (c.replayed < 2 ^ 32) }
    ensures agree { (result.agree ≡ pick agrees (min (c.agree + 1) (2 ^ 32 - 1)) c.agree) × (c.agree < 2 ^ 32) }
{
    Count {
        replayed: c.replayed.saturating_add(1),
        agree: if agrees {
            c.agree.saturating_add(1)
        } else {
            c.agree
        },
    }
}

// A verdict more: its operation was replayed once more, and agrees once more if the verdict says so.
pub fn counted(t: Tally, v: Verdict) -> Tally
    ensures replayed { replayed result ≡ one_more (replayed t) v.kind }
    ensures agree { agree result ≡ pick v.agrees (one_more (agree t) v.kind) (agree t) }
{
    let mut counts = t.counts;
    if v.kind < 21 {
        counts[v.kind] = one_more(counts[v.kind], v.agrees);
    }
    Tally { counts }
}
