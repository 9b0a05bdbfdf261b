// The coefficients of the planes and the chroma offsets: numbers that are sent as bits less half their range.
ghost use Rattle.std.specs.Prelude.{◌≡◌, ◌+◌, ◌-◌, ◌*◌, ◌^◌, ◌<◌, ◌≤◌, pos, ◌-ℤ◌, length, replicate};
ghost use Rattle.getbits.specs.Bits.{bit_count, position};
ghost use Rattle.film_grain.specs.Coeffs.{bits_less, coeff, coeffs_from, coeffs_if, num_pos, plane_coeffs, offsets_if, chroma_offsets};
ghost use Rattle.film_grain.specs.Inner.{lent_coeffs, coeff_lists};

use super::points::has_points;
use getbits::{Place, Read, look_ahead, more_than, power, read_bits, skip};
use seq_fields::{bit, get_small};

// The offsets of a chroma plane.
#[derive(Clone, Copy)]
pub struct OffsetsRead {
    pub mult: i16,
    pub luma_mult: i16,
    pub offset: i16,
    pub next: Place,
}

// The offsets of both chroma planes.
#[derive(Clone, Copy)]
pub struct ChromaOffsets {
    pub uv_mult: [i16; 2],
    pub uv_luma_mult: [i16; 2],
    pub uv_offset: [i16; 2],
    pub next: Place,
}

// A number less another.
fn minus(v: u32, less: u32) -> i16
    requires { (v < 512) × (less ≤ 256) }
    ensures { result ≡ pos v -ℤ pos less }
{
    v as i16 - less as i16
}

// n bits less a number. The place goes on in its parts, as in get_small.
fn bits_less(s: &[u8], p: Place, n: u32, less: u32) -> Read<i16>
    requires { (n ≤ 9) × (less ≤ 256) }
    ensures { result ≡ bits_less s.now p n less }
{
    let r = read_bits(s, p, n);
    let next = r.next;
    Read {
        value: minus(r.value, less),
        next: Place {
            byte: next.byte,
            used: next.used,
            error: next.error,
        },
    }
}

// The bits of a coefficient less half its range.
fn centred(v: u32, half: u32) -> i8
    requires { (v < 2 * half) × (half ≤ 128) }
    ensures { result ≡ pos v -ℤ pos half }
{
    minus(v, half) as i8
}

// Four coefficients whose bits are there, out of one word.
fn four_coeffs(s: &[u8], p: Place, i: usize, coef_bits: u32, half: u32, coeffs: &mut [i8]) -> Place
    requires { (1 ≤ coef_bits) × (coef_bits ≤ 8) × (half ≡ 2 ^ (coef_bits - 1)) × (i + 4 ≤ length coeffs.old) × (position s.now p + 4 * coef_bits ≤ bit_count s.now) }
    ensures { lent_coeffs coeffs.new result ≡ coeff s.now coef_bits (i + 3) (coeff s.now coef_bits (i + 2)
        (coeff s.now coef_bits (i + 1) (coeff s.now coef_bits i (lent_coeffs coeffs.old p)))) }
{
    let w = look_ahead(s, p, 4 * coef_bits);
    let low = power(coef_bits);
    coeffs[i] = centred(w >> (3 * coef_bits), half);
    coeffs[i + 1] = centred((w >> (2 * coef_bits)) % low, half);
    coeffs[i + 2] = centred((w >> coef_bits) % low, half);
    coeffs[i + 3] = centred(w % low, half);
    skip(s, p, 4 * coef_bits)
}

// n coefficients, each less half its range.
fn read_coeffs(s: &[u8], p: Place, n: usize, coef_bits: u32, coeffs: &mut [i8]) -> Place
    requires { (n ≤ 28) × (1 ≤ coef_bits) × (coef_bits ≤ 8) × (coeffs.old ≡ replicate 28 (pos 0)) }
    ensures { lent_coeffs coeffs.new result ≡ coeffs_from s.now p n coef_bits }
{
    let half = power(coef_bits - 1);
    let mut next = p;
    let mut i: usize = 0;
    while i < n {
        if (i + 4 <= n) & more_than(s, next, 4 * coef_bits) {
            next = four_coeffs(s, next, i, coef_bits, half, &mut *coeffs);
            i += 4;
        } else {
            let c = bits_less(s, next, coef_bits, half);
            coeffs[i] = c.value as i8;
            next = c.next;
            i += 1;
        }
    }
    next
}

// The coefficients of a plane under a condition: their width, and n of them.
fn coeffs_if(s: &[u8], p: Place, n: usize, cond: bool, coeffs: &mut [i8]) -> Place
    requires { (n ≤ 28) × (coeffs.old ≡ replicate 28 (pos 0)) }
    ensures { lent_coeffs coeffs.new result ≡ coeffs_if cond s.now p n }
{
    if cond {
        let b = get_small(s, p, 2);
        return read_coeffs(s, b.next, n, 5 + b.value as u32, &mut *coeffs);
    }
    p
}

// How many coefficients a lag gives.
fn num_pos(lag: u8) -> usize
    requires { lag < 4 }
    ensures { (result ≡ num_pos lag) × (result ≤ 24) }
{
    let lag = lag as usize;
    2 * lag * (lag + 1)
}

// The coefficients of all planes.
pub fn plane_coeffs(
    s: &[u8],
    p: Place,
    from_luma: bool,
    num_points: [u8; 3],
    lag: u8,
    y_list: &mut [i8],
    u_list: &mut [i8],
    v_list: &mut [i8],
) -> Place
    requires { (lag < 4) × (y_list.old ≡ replicate 28 (pos 0)) × (u_list.old ≡ replicate 28 (pos 0)) × (v_list.old ≡ replicate 28 (pos 0)) }
    ensures { record { ar_coeffs = coeff_lists y_list.new u_list.new v_list.new; next = result } ≡ plane_coeffs from_luma num_points lag s.now p }
{
    let luma = has_points(num_points[0]);
    let n = num_pos(lag);
    let chroma_n = n + bit(luma) as usize;
    let y = coeffs_if(s, p, n, luma, &mut *y_list);
    let u = coeffs_if(
        s,
        y,
        chroma_n,
        has_points(num_points[1]) | from_luma,
        &mut *u_list,
    );
    coeffs_if(
        s,
        u,
        chroma_n,
        has_points(num_points[2]) | from_luma,
        &mut *v_list,
    )
}

// The offsets of a chroma plane under a condition.
fn offsets_if(s: &[u8], p: Place, cond: bool) -> OffsetsRead
    ensures { result ≡ offsets_if cond s.now p }
{
    if cond {
        if more_than(s, p, 25) {
            let w = look_ahead(s, p, 25);
            return OffsetsRead {
                mult: minus(w >> 17, 128),
                luma_mult: minus((w >> 9) % 256, 128),
                offset: minus(w % 512, 256),
                next: skip(s, p, 25),
            };
        }
        let mult = bits_less(s, p, 8, 128);
        let luma_mult = bits_less(s, mult.next, 8, 128);
        let offset = bits_less(s, luma_mult.next, 9, 256);
        return OffsetsRead {
            mult: mult.value,
            luma_mult: luma_mult.value,
            offset: offset.value,
            next: offset.next,
        };
    }
    OffsetsRead {
        mult: 0,
        luma_mult: 0,
        offset: 0,
        next: p,
    }
}

// The offsets of the chroma planes that have points.
pub fn chroma_offsets(s: &[u8], p: Place, num_points: [u8; 3]) -> ChromaOffsets
    ensures { result ≡ chroma_offsets num_points s.now p }
{
    let u = offsets_if(s, p, has_points(num_points[1]));
    let v = offsets_if(s, u.next, has_points(num_points[2]));
    ChromaOffsets {
        uv_mult: [u.mult, v.mult],
        uv_luma_mult: [u.luma_mult, v.luma_mult],
        uv_offset: [u.offset, v.offset],
        next: v.next,
    }
}
