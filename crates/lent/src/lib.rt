// What a caller of the C interface lends: flags in bytes, and a reader's place as a position in bits and an error.
#![tactic(auto)]

ghost use Rattle.std.specs.Prelude.{◌≡◌, [], ◌∷◌};
ghost use Rattle.getbits.specs.Bits.{settled};
ghost use Rattle.lent.specs.Lent.{is_set, place_of, position_of, lent_place};

use getbits::{Place, read_bits};

pub fn is_set(flag: u8) -> bool
    ensures { result ≡ is_set flag }
{
    flag != 0
}

pub fn place_of(position: usize, error: u8) -> Place
    ensures { result ≡ place_of position error }
{
    Place {
        byte: position / 8,
        used: (position % 8) as u32,
        error: error != 0,
    }
}

pub fn position_of(p: Place) -> usize
    ensures { result ≡ position_of p }
{
    std::num::wrapping_add_usize(p.byte % 0x2000_0000_0000_0000 * 8, p.used as usize)
}

// The place is handed back: the error is stored only where it is newly set.
pub fn put_place(p: Place, position: &mut usize, error: &mut u8)
    ensures { (position.new ∷ error.new ∷ []) ≡ lent_place p error.old }
{
    *position = position_of(p);
    if p.error {
        if *error == 0 {
            *error = 1;
        }
    }
}

// The place is handed back where no bit is used: one past the last bit as the end.
pub fn settle_place(s: &[u8], position: &mut usize, error: &mut u8)
    ensures { (position.new ∷ error.new ∷ [])
        ≡ lent_place (settled s.now (place_of position.old error.old)) error.old }
{
    let here = read_bits(s, place_of(*position, *error), 0);
    put_place(here.next, &mut *position, &mut *error);
}
