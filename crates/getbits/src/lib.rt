// The bit reader, by value: a place goes in beside the bytes, and the next place comes back.
#![tactic(auto)]

ghost use Rattle.std.specs.Prelude.{◌≡◌, ◌+◌, ◌-◌, ◌%◌, ◌^◌, ◌<◌, ◌≤◌, ltb, pos, negsuc, length, drop};
ghost use Rattle.getbits.specs.Bits.{bit_count, position, settled, run_out, refused, read_bits, look_at, get_bit, get_bits, signed_of, get_sbits, byte_pos, byte_align, bits_if, get_flag, flag_if};

mod words;

use words::{narrow, peek, within};

// The byte reached, the bits of it used (0 to 7) and the reader's error.
#[derive(Clone, Copy)]
pub struct Place {
    pub byte: usize,
    pub used: u32,
    pub error: bool,
}

// What was read, and the place after it.
#[derive(Clone, Copy)]
pub struct Read<T> {
    pub value: T,
    pub next: Place,
}

// A place past the last bit, or with more than 7 bits used, becomes the end.
pub fn settle(s: &[u8], p: Place) -> Place
    ensures { (result ≡ settled s.now p) × (result.byte ≤ length s.now) × (result.used < 8) }
{
    if p.byte < s.len() {
        if p.used < 8 {
            return p;
        }
    }
    Place {
        byte: s.len(),
        used: 0,
        error: p.error,
    }
}

pub fn has_error(p: Place) -> bool
    ensures { result ≡ p.error }
{
    p.error
}

// The answer where the bits run out.
fn exhausted(s: &[u8]) -> Read<u32>
    ensures { result ≡ run_out s.now }
{
    Read {
        value: 0,
        next: Place {
            byte: s.len(),
            used: 0,
            error: true,
        },
    }
}

pub fn get_bit(s: &[u8], p: Place) -> Read<u32>
    ensures { result ≡ get_bit s.now p }
{
    let byte = p.byte;
    let used = p.used;
    if s.len() <= byte {
        return exhausted(s);
    }
    if 8 <= used {
        return exhausted(s);
    }
    let b = s[byte] as u32;
    let stop = used + 1;
    Read {
        value: (b >> (7 - used)) % 2,
        next: Place {
            byte: byte + (stop / 8) as usize,
            used: stop % 8,
            error: p.error,
        },
    }
}

// The answer to a wrong argument.
pub fn refuse(s: &[u8], p: Place) -> Read<u32>
    ensures { result ≡ refused s.now p }
{
    let q = settle(s, p);
    Read {
        value: 0,
        next: Place {
            byte: q.byte,
            used: q.used,
            error: true,
        },
    }
}

// get_bits for a width that has no sign. Its bits come from `peek`, so that it stays small.
pub fn read_wide(s: &[u8], p: Place, n: u32) -> Read<u32>
    ensures { result ≡ get_bits s.now p (pos n) }
{
    if 32 < n {
        return refuse(s, p);
    }
    let q = settle(s, p);
    let byte = q.byte;
    let used = q.used;
    let stop = used + n;
    if s.len() - byte < ((stop + 7) / 8) as usize {
        return exhausted(s);
    }
    Read {
        value: peek(s, byte, used, n),
        next: Place {
            byte: byte + (stop / 8) as usize,
            used: stop % 8,
            error: p.error,
        },
    }
}

// The same. Where four bytes are left, they hold up to 25 bits, and nothing else is asked: it is inlined in its callers, and so keeps a place out
// of memory.
pub fn read_bits(s: &[u8], p: Place, n: u32) -> Read<u32>
    ensures { result ≡ get_bits s.now p (pos n) }
{
    let byte = p.byte;
    let used = p.used;
    if n <= 25 && used < 8 && 4 <= s.len() && byte <= s.len() - 4 {
        let stop = used + n;
        return Read {
            value: narrow(s, byte, used, n),
            next: Place {
                byte: byte + (stop / 8) as usize,
                used: stop % 8,
                error: p.error,
            },
        };
    }
    read_wide(s, p, n)
}

// The n bits behind a place, at most 32, with 0 for each past the end. None is used.
pub fn look(s: &[u8], p: Place, n: u32) -> u32
    ensures { result ≡ look_at s.now p n }
{
    if n <= 32 {
        let q = settle(s, p);
        return peek(s, q.byte, q.used, n);
    }
    0
}

// The same, without a call where eight bytes are left.
pub fn look_ahead(s: &[u8], p: Place, n: u32) -> u32
    ensures { result ≡ look_at s.now p n }
{
    if n <= 32 {
        let q = settle(s, p);
        if 8 <= s.len() - q.byte {
            return within(s, q.byte, q.used, n);
        }
    }
    look(s, p, n)
}

// Are more than n bits left behind a place?
pub fn more_than(s: &[u8], p: Place, n: u32) -> bool
    ensures { result ≡ ltb (position s.now p + n) (bit_count s.now) }
{
    if 8 <= p.used {
        return false;
    }
    if s.len() <= p.byte {
        return false;
    }
    (p.used as usize + n as usize) / 8 < s.len() - p.byte
}

// The place behind n bits, of which no number is made.
pub fn skip(s: &[u8], p: Place, n: u32) -> Place
    ensures { result ≡ (read_bits s.now p n).next }
{
    if more_than(s, p, n) {
        let stop = p.used as usize + n as usize;
        return Place {
            byte: p.byte + stop / 8,
            used: (stop % 8) as u32,
            error: p.error,
        };
    }
    let q = settle(s, p);
    if (q.used as usize + n as usize + 7) / 8 <= s.len() - q.byte {
        return Place {
            byte: s.len(),
            used: 0,
            error: p.error,
        };
    }
    let r = exhausted(s);
    r.next
}

pub fn get_bits(s: &[u8], p: Place, n: i32) -> Read<u32>
    ensures { result ≡ get_bits s.now p n }
{
    if n < 0 {
        return refuse(s, p);
    }
    read_bits(s, p, n as u32)
}

// 2 ^ n, for n below 32.
pub fn power(n: u32) -> u32
    ensures { (result ≡ 2 ^ (n % 32)) × (1 ≤ result) × (result ≤ 2 ^ 31) }
{
    1 << (n % 32)
}

// The number of n bits with the top one as sign.
fn sign(v: u32, n: u32) -> i32
    requires { (1 ≤ n) × (n ≤ 32) × (v < 2 ^ n) }
    ensures { result ≡ signed_of n v }
{
    let half = power(n - 1);
    if v < half {
        return v as i32;
    }
    below_zero(half - 1 - (v - half))
}

// -1 - x
fn below_zero(x: u32) -> i32
    requires { x < 2 ^ 31 }
    ensures { result ≡ negsuc x }
{
    -1 - x as i32
}

pub fn get_sbits(s: &[u8], p: Place, n: i32) -> Read<i32>
    ensures { result ≡ get_sbits s.now p n }
{
    let r = get_bits(s, p, n);
    let next = r.next;
    if r.value == 0 {
        return Read { value: 0, next };
    }
    Read {
        value: sign(r.value, n as u32),
        next,
    }
}

pub fn byte_pos(s: &[u8], p: Place) -> usize
    ensures { result ≡ byte_pos s.now p }
{
    let q = settle(s, p);
    q.byte + ((q.used + 7) / 8) as usize
}

pub fn remaining_bytes(s: &[u8], p: Place) -> usize
    ensures { result ≡ length s.now - byte_pos s.now p }
{
    s.len() - byte_pos(s, p)
}

pub fn remaining_slice(s: &[u8], p: Place) -> &[u8]
    ensures { result.now ≡ drop (byte_pos s.now p) s.now }
{
    let at = byte_pos(s, p);
    &s[at..]
}

pub fn bytealign(s: &[u8], p: Place) -> Place
    ensures { result ≡ byte_align s.now p }
{
    Place {
        byte: byte_pos(s, p),
        used: 0,
        error: p.error,
    }
}

// n bits under a condition: else 0, and the place as it was.
pub fn bits_if(s: &[u8], p: Place, n: i32, cond: bool) -> Read<u32>
    ensures { result ≡ bits_if cond s.now p n }
{
    if cond {
        get_bits(s, p, n)
    } else {
        Read { value: 0, next: p }
    }
}

// A bit as a flag.
pub fn get_flag(s: &[u8], p: Place) -> Read<bool>
    ensures { result ≡ get_flag s.now p }
{
    let b = get_bit(s, p);
    Read {
        value: b.value == 1,
        next: b.next,
    }
}

// A flag under a condition: else false, and the place as it was.
pub fn flag_if(s: &[u8], p: Place, cond: bool) -> Read<bool>
    ensures { result ≡ flag_if cond s.now p }
{
    if cond {
        get_flag(s, p)
    } else {
        Read {
            value: false,
            next: p,
        }
    }
}
