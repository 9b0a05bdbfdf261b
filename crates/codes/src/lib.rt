// The readings of variable length, over the reader's bits.
#![tactic(auto)]

ghost use Rattle.std.specs.Prelude.{◌≡◌, ◌&&◌, List, ℕ, ◌+◌, ◌*◌, ◌-◌, ◌^◌, ◌<◌, ◌≤◌, ltb, leb, eqb, pos, ◌+ℤ◌, ◌-ℤ◌, length};
ghost use Rattle.codes.specs.Codes.{bit_length, run_of, get_vlc, get_uniform, get_ref_uniform, uleb_from, get_uleb128, get_golomb, subexp_from, subexp_args, get_bits_subexp_u, subexp_range, get_bits_subexp, vlc_if, uniform_if};
ghost use Rattle.getbits.specs.Bits.{bit_count, position, read_bits, look_at};
ghost use Rattle.getbits.specs.declared.Place.{Place};
ghost use Rattle.getbits.specs.Chain.{pick};

use getbits::{Place, Read, get_bit, look, look_ahead, power, read_bits, read_wide, refuse};

mod intops;

use intops::inv_recenter;

// The bits of w in which a run of `bit` is a run of zeros.
fn as_zeros(w: u32, bit: u32) -> u32
    ensures { result ≡ pick (eqb bit 0) w (2 ^ 32 - 1 - w) }
{
    if bit == 0 { w } else { !w }
}

// How many bits in a row are `bit`, at most `most`; the first that is not is used too. They are counted in one word, which has 0 for each past the
// end, as get_bit does.
fn run(s: &[u8], p: Place, bit: u32, most: u32) -> Read<u32>
    requires { (bit < 2) × (most ≤ 32) }
    ensures { result ≡ run_of bit most s.now p }
{
    if most == 0 {
        return Read { value: 0, next: p };
    }
    let w = look(s, p, 32);
    let n = as_zeros(w, bit).leading_zeros().min(most);
    let r = read_wide(s, p, (n + 1).min(most));
    Read {
        value: n,
        next: r.next,
    }
}

pub fn get_vlc(s: &[u8], p: Place) -> Read<u32>
    ensures { result ≡ get_vlc s.now p }
{
    let z = run(s, p, 0, 32);
    let n_bits = z.value;
    let q = z.next;
    if n_bits < 32 {
        let r = read_bits(s, q, n_bits);
        return Read {
            value: power(n_bits) - 1 + r.value,
            next: r.next,
        };
    }
    Read {
        value: 4_294_967_295,
        next: q,
    }
}

// How get_uniform writes a number below max: in `bits` bits, or in one less if it is below `short`.
#[derive(Clone, Copy)]
pub struct Forms {
    pub bits: u32,
    pub short: u32,
}

pub fn uniform_forms(max: u32) -> Forms
    ensures { (result.bits ≡ bit_length max) × (result.short ≡ 2 ^ bit_length max - max) }
{
    let bits = 32 - max.leading_zeros();
    Forms {
        bits,
        short: ((1u64 << bits) - max as u64) as u32,
    }
}

// get_uniform bit by bit.
fn uniform_by_bits(s: &[u8], p: Place, max: u32) -> Read<u32>
    ensures { result ≡ get_uniform s.now p max }
{
    if max <= 1 {
        return read_bits(s, p, 0);
    }
    if 0x8000_0000 <= max {
        return refuse(s, p);
    }
    let f = uniform_forms(max);
    let l = f.bits;
    let m = f.short;
    let r = read_bits(s, p, l - 1);
    let v = r.value;
    let q = r.next;
    if v < m {
        return r;
    }
    let b = get_bit(s, q);
    Read {
        value: 2 * v - m + b.value,
        next: b.next,
    }
}

// A number below max, and how many bits it takes.
#[derive(Clone, Copy)]
struct Uniform {
    value: u32,
    bits: u32,
}

// get_uniform out of the 32 bits behind a place, where they are all there.
fn uniform_of(word: u32, max: u32) -> Uniform
    ensures reads { (s : List ℕ) (p : Place) → word ≡ look_at s p 32 → position s p + 32 ≤ bit_count s → 1 ≤ max → max < 2 ^ 31
        → (result.value ≡ (get_uniform s p max).value) × ((read_bits s p result.bits).next ≡ (get_uniform s p max).next) }
    ensures most { result.bits ≤ 32 }
{
    let f = uniform_forms(max);
    let w = (word as u64 >> (32 - f.bits)) as u32;
    if w / 2 < f.short {
        return Uniform {
            value: w / 2,
            bits: f.bits.saturating_sub(1),
        };
    }
    Uniform {
        value: w - f.short,
        bits: f.bits,
    }
}

// Are eight bytes left? So many that no number runs out.
fn eight_left(s: &[u8], p: Place) -> bool
    ensures { result ≡ ltb p.used 8 && leb (p.byte + 8) (length s.now) }
{
    if 8 <= p.used {
        return false;
    }
    if s.len() < 8 {
        return false;
    }
    p.byte <= s.len() - 8
}

// Where eight bytes are left, the number comes out of one word; where this is inlined, as in the loop over sizes, the place stays out of memory.
pub fn get_uniform(s: &[u8], p: Place, max: u32) -> Read<u32>
    ensures { result ≡ get_uniform s.now p max }
{
    if (1 <= max) & (max < 0x8000_0000) {
        if eight_left(s, p) {
            let u = uniform_of(look_ahead(s, p, 32), max);
            let stop = p.used + u.bits;
            return Read {
                value: u.value,
                next: Place {
                    byte: p.byte + (stop / 8) as usize,
                    used: stop % 8,
                    error: p.error,
                },
            };
        }
    }
    uniform_by_bits(s, p, max)
}

pub fn get_ref_uniform(s: &[u8], p: Place, max: u32, def: u32) -> Read<u32>
    ensures { result ≡ get_ref_uniform s.now p max def }
{
    if max <= 1 {
        return read_bits(s, p, 0);
    }
    if 0x8000_0000 <= max {
        return refuse(s, p);
    }
    let d = def.min(max - 1);
    let b = get_bit(s, p);
    let q = b.next;
    if b.value == 0 {
        return Read { value: d, next: q };
    }
    let r = get_uniform(s, q, max - 1);
    if r.value < d {
        return r;
    }
    Read {
        value: r.value + 1,
        next: r.next,
    }
}

// At most eight bytes of seven bits each, the lowest first.
fn groups(s: &[u8], p: Place) -> Read<u64>
    ensures { (result.value ≡ (uleb_from 8 s.now p).value) × (result.next ≡ (uleb_from 8 s.now p).next) }
{
    let mut q = p;
    let mut val: u64 = 0;
    let mut weight: u64 = 1;
    for _ in 0..8u32 {
        let b = read_bits(s, q, 8);
        q = b.next;
        let v = b.value as u64;
        if v < 128 {
            return Read {
                value: val + v * weight,
                next: q,
            };
        }
        val += (v - 128) * weight;
        weight *= 128;
    }
    Read {
        value: val,
        next: q,
    }
}

pub fn get_uleb128(s: &[u8], p: Place) -> Read<u32>
    ensures { result ≡ get_uleb128 s.now p }
{
    let r = groups(s, p);
    let next = r.next;
    if r.value < 0x1_0000_0000 {
        return Read {
            value: r.value as u32,
            next,
        };
    }
    Read {
        value: 0,
        next: Place {
            byte: next.byte,
            used: next.used,
            error: true,
        },
    }
}

pub fn get_golomb(s: &[u8], p: Place, k: u32) -> Read<u32>
    ensures { result ≡ get_golomb s.now p k }
{
    if 32 <= k {
        return refuse(s, p);
    }
    let c = run(s, p, 1, 32 - k);
    let bits = c.value;
    let q = c.next;
    if bits + k == 32 {
        return Read {
            value: 4_294_967_295,
            next: q,
        };
    }
    let r = read_bits(s, q, k);
    Read {
        value: bits * power(k) + r.value,
        next: r.next,
    }
}

// How many bits say where in its step i a number is: k for the first two steps, then one more each time.
fn step_bits(k: u32, i: u32) -> u32
    requires { (k < 32) × (i ≤ 32) }
    ensures { result ≡ k + (i - 1) }
{
    if i != 0 { k + i - 1 } else { k }
}

// A number below n, in steps.
fn subexp(s: &[u8], p: Place, n: u32, k: u32) -> Read<u32>
    requires { (k < 32) × (1 ≤ n) × (n < 2 ^ 31) }
    ensures { result ≡ subexp_from 33 s.now p n k 0 0 }
{
    let mut q = p;
    let mut v: u32 = 0;
    let mut i: u32 = 0;
    loop {
        let b = step_bits(k, i);
        let a = power(b);
        if n as u64 <= v as u64 + 3 * (a as u64) {
            let r = get_uniform(s, q, n - v);
            return Read {
                value: v + r.value,
                next: r.next,
            };
        }
        let g = get_bit(s, q);
        q = g.next;
        if g.value == 0 {
            let r = read_bits(s, q, b);
            return Read {
                value: v + r.value,
                next: r.next,
            };
        }
        v += a;
        i += 1;
    }
}

fn subexp_args(ref_val: u32, n: u32, k: i32) -> bool
    ensures { result ≡ subexp_args ref_val n k }
{
    ((0 <= k) & (k < 32)) & ((ref_val < n) & (n < 0x8000_0000))
}

pub fn get_bits_subexp_u(s: &[u8], p: Place, ref_val: u32, n: u32, k: i32) -> Read<u32>
    ensures { result ≡ get_bits_subexp_u s.now p ref_val n k }
{
    if subexp_args(ref_val, n, k) {
        let r = subexp(s, p, n, k as u32);
        if 2 * ref_val <= n {
            return Read {
                value: inv_recenter(ref_val, r.value),
                next: r.next,
            };
        }
        return Read {
            value: n - 1 - inv_recenter(n - 1 - ref_val, r.value),
            next: r.next,
        };
    }
    refuse(s, p)
}

// The reference moved up by off, so that it counts from 0.
fn shifted(ref_val: i32, off: u32) -> i64
    ensures { result ≡ ref_val +ℤ pos off }
{
    ref_val as i64 + off as i64
}

// a - b
fn difference(a: u32, b: u32) -> i32
    requires { (a < 2 ^ 31) × (b < 2 ^ 31) }
    ensures { result ≡ pos a -ℤ pos b }
{
    a as i32 - b as i32
}

fn subexp_range(n: u32, x: i64) -> bool
    ensures { result ≡ subexp_range n x }
{
    ((1 <= n) & (n <= 0x4000_0000)) & ((0 <= x) & (x < 0x8000_0000))
}

pub fn get_bits_subexp(s: &[u8], p: Place, ref_val: i32, n: u32) -> Read<i32>
    ensures { result ≡ get_bits_subexp s.now p ref_val n }
{
    let off = n.saturating_sub(1);
    let x = shifted(ref_val, off);
    if subexp_range(n, x) {
        let r = get_bits_subexp_u(s, p, x as u32, n + off, 3);
        return Read {
            value: difference(r.value, off),
            next: r.next,
        };
    }
    let r = refuse(s, p);
    Read {
        value: 0,
        next: r.next,
    }
}

// get_vlc under a condition: else 0, and the place as it was.
pub fn vlc_if(s: &[u8], p: Place, cond: bool) -> Read<u32>
    ensures { result ≡ vlc_if cond s.now p }
{
    if cond {
        get_vlc(s, p)
    } else {
        Read { value: 0, next: p }
    }
}

// get_uniform under a condition: else 0, and the place as it was.
pub fn uniform_if(s: &[u8], p: Place, max: u32, cond: bool) -> Read<u32>
    ensures { result ≡ uniform_if cond s.now p max }
{
    if cond {
        get_uniform(s, p, max)
    } else {
        Read { value: 0, next: p }
    }
}
