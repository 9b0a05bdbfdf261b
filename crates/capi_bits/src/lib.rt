// The readings for Rust and C: numbers and slices only. A place is lent as the bits before it and the error.
#![tactic(auto)]

ghost use Rattle.std.specs.Prelude.{◌≡◌, ◌-◌, [], ◌∷◌, length, pos};
ghost use Rattle.codes.specs.Codes.{get_vlc, get_uniform, get_ref_uniform, get_uleb128, get_golomb, get_bits_subexp_u, get_bits_subexp};
ghost use Rattle.getbits.specs.Bits.{get_bit, get_bits, get_sbits, byte_pos, byte_align};
ghost use Rattle.lent.specs.Lent.{place_of, position_of};
ghost use Rattle.capi_bits.specs.Numbers.{lent_number, lent_signed};

use codes::{
    get_bits_subexp, get_bits_subexp_u, get_golomb, get_ref_uniform, get_uleb128, get_uniform,
    get_vlc, uniform_forms,
};
use getbits::{Place, Read, byte_pos, bytealign, get_bits, get_sbits, look_ahead, remaining_bytes};
use lent::{place_of, position_of, put_place};

// The number of the interface.
const INTERFACE: u32 = 3;

#[unsafe(no_mangle)]
pub extern "C" fn mubanlig_bits_interface_3() -> u32
    ensures { result ≡ 3 }
{
    INTERFACE
}

// A reading is handed back: the place is stored, and the number is the answer.
fn hand_back(read: Read<u32>, position: &mut usize, error: &mut u8) -> u32
    ensures { (result ∷ position.new ∷ error.new ∷ []) ≡ lent_number read error.old }
{
    put_place(read.next, &mut *position, &mut *error);
    read.value
}

// The same of a signed number.
fn hand_back_signed(r: Read<i32>, position: &mut usize, error: &mut u8) -> i32
    ensures { (result ∷ pos position.new ∷ pos error.new ∷ []) ≡ lent_signed r error.old }
{
    put_place(r.next, &mut *position, &mut *error);
    r.value
}

// n bits, wherever the place is.
fn read_bits(s: &[u8], position: &mut usize, error: &mut u8, n: i32) -> u32
    ensures { (result ∷ position.new ∷ error.new ∷ [])
        ≡ lent_number (get_bits s.now (place_of position.old error.old) n) error.old }
{
    let r = get_bits(s, place_of(*position, *error), n);
    hand_back(r, &mut *position, &mut *error)
}

#[unsafe(no_mangle)]
pub extern "C" fn mubanlig_get_bit(s: &[u8], position: &mut usize, error: &mut u8) -> u32
    ensures { (result ∷ position.new ∷ error.new ∷ [])
        ≡ lent_number (get_bit s.now (place_of position.old error.old)) error.old }
{
    let at = *position;
    let byte = at / 8;
    if byte < s.len() {
        *position = std::num::wrapping_add_usize(at, 1);
        return (s[byte] as u32 >> (7 - (at % 8) as u32)) % 2;
    }
    read_bits(s, &mut *position, &mut *error, 1)
}

#[unsafe(no_mangle)]
pub extern "C" fn mubanlig_get_bits(s: &[u8], position: &mut usize, error: &mut u8, n: i32) -> u32
    ensures { (result ∷ position.new ∷ error.new ∷ [])
        ≡ lent_number (get_bits s.now (place_of position.old error.old) n) error.old }
{
    let at = *position;
    // Where eight bytes are left, no field runs out.
    if (0 <= n) & (n < 33) {
        if at / 8 + 8 <= s.len() {
            let width = n as u32;
            *position = std::num::wrapping_add_usize(at, width as usize);
            return look_ahead(s, place_of(at, 0), width);
        }
    }
    read_bits(s, &mut *position, &mut *error, n)
}

#[unsafe(no_mangle)]
pub extern "C" fn mubanlig_get_sbits(s: &[u8], position: &mut usize, error: &mut u8, n: i32) -> i32
    ensures { (result ∷ pos position.new ∷ pos error.new ∷ [])
        ≡ lent_signed (get_sbits s.now (place_of position.old error.old) n) error.old }
{
    let r = get_sbits(s, place_of(*position, *error), n);
    hand_back_signed(r, &mut *position, &mut *error)
}

#[unsafe(no_mangle)]
pub extern "C" fn mubanlig_get_vlc(s: &[u8], position: &mut usize, error: &mut u8) -> u32
    ensures { (result ∷ position.new ∷ error.new ∷ [])
        ≡ lent_number (get_vlc s.now (place_of position.old error.old)) error.old }
{
    let r = get_vlc(s, place_of(*position, *error));
    hand_back(r, &mut *position, &mut *error)
}

#[unsafe(no_mangle)]
pub extern "C" fn mubanlig_get_uniform(
    s: &[u8],
    position: &mut usize,
    error: &mut u8,
    max: u32,
) -> u32
    ensures { (result ∷ position.new ∷ error.new ∷ [])
        ≡ lent_number (get_uniform s.now (place_of position.old error.old) max) error.old }
{
    let at = *position;
    if (2 <= max) & (max < 0x8000_0000) {
        if at / 8 + 8 <= s.len() {
            let f = uniform_forms(max);
            let l = f.bits;
            let m = f.short;
            let w = look_ahead(s, place_of(at, 0), l);
            if w / 2 < m {
                *position = std::num::wrapping_add_usize(at, (l - 1) as usize);
                return w / 2;
            }
            *position = std::num::wrapping_add_usize(at, l as usize);
            return w - m;
        }
    }
    let r = get_uniform(s, place_of(at, *error), max);
    hand_back(r, &mut *position, &mut *error)
}

#[unsafe(no_mangle)]
pub extern "C" fn mubanlig_get_ref_uniform(
    s: &[u8],
    position: &mut usize,
    error: &mut u8,
    max: u32,
    def: u32,
) -> u32
    ensures { (result ∷ position.new ∷ error.new ∷ [])
        ≡ lent_number (get_ref_uniform s.now (place_of position.old error.old) max def) error.old }
{
    let r = get_ref_uniform(s, place_of(*position, *error), max, def);
    hand_back(r, &mut *position, &mut *error)
}

#[unsafe(no_mangle)]
pub extern "C" fn mubanlig_get_uleb128(s: &[u8], position: &mut usize, error: &mut u8) -> u32
    ensures { (result ∷ position.new ∷ error.new ∷ [])
        ≡ lent_number (get_uleb128 s.now (place_of position.old error.old)) error.old }
{
    let r = get_uleb128(s, place_of(*position, *error));
    hand_back(r, &mut *position, &mut *error)
}

#[unsafe(no_mangle)]
pub extern "C" fn mubanlig_get_golomb(s: &[u8], position: &mut usize, error: &mut u8, k: u32) -> u32
    ensures { (result ∷ position.new ∷ error.new ∷ [])
        ≡ lent_number (get_golomb s.now (place_of position.old error.old) k) error.old }
{
    let r = get_golomb(s, place_of(*position, *error), k);
    hand_back(r, &mut *position, &mut *error)
}

#[unsafe(no_mangle)]
pub extern "C" fn mubanlig_get_bits_subexp_u(
    s: &[u8],
    position: &mut usize,
    error: &mut u8,
    ref_val: u32,
    n: u32,
    k: i32,
) -> u32
    ensures { (result ∷ position.new ∷ error.new ∷ [])
        ≡ lent_number (get_bits_subexp_u s.now (place_of position.old error.old) ref_val n k) error.old }
{
    let r = get_bits_subexp_u(s, place_of(*position, *error), ref_val, n, k);
    hand_back(r, &mut *position, &mut *error)
}

#[unsafe(no_mangle)]
pub extern "C" fn mubanlig_get_bits_subexp(
    s: &[u8],
    position: &mut usize,
    error: &mut u8,
    ref_val: i32,
    n: u32,
) -> i32
    ensures { (result ∷ pos position.new ∷ pos error.new ∷ [])
        ≡ lent_signed (get_bits_subexp s.now (place_of position.old error.old) ref_val n) error.old }
{
    let r = get_bits_subexp(s, place_of(*position, *error), ref_val, n);
    hand_back_signed(r, &mut *position, &mut *error)
}

// The place of a position, for what has nothing to do with the error.
fn place_at(position: usize) -> Place
    ensures { result ≡ place_of position 0 }
{
    place_of(position, 0)
}

#[unsafe(no_mangle)]
pub extern "C" fn mubanlig_bytealign(s: &[u8], position: &mut usize)
    ensures { position.new ≡ position_of (byte_align s.now (place_of position.old 0)) }
{
    *position = position_of(bytealign(s, place_at(*position)));
}

#[unsafe(no_mangle)]
pub extern "C" fn mubanlig_byte_pos(s: &[u8], position: usize) -> usize
    ensures { result ≡ byte_pos s.now (place_of position 0) }
{
    byte_pos(s, place_at(position))
}

#[unsafe(no_mangle)]
pub extern "C" fn mubanlig_remaining_bytes(s: &[u8], position: usize) -> usize
    ensures { result ≡ length s.now - byte_pos s.now (place_of position 0) }
{
    remaining_bytes(s, place_at(position))
}
