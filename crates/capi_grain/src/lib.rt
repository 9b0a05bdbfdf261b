// The function for Rust and C over film grain parameters: numbers and slices only.
#![tactic(auto)]

ghost use Rattle.std.specs.Prelude.{[], ◌∷◌, ◌++◌, ◌≡◌, pos, replicate, drop};
ghost use Rattle.capi_grain.specs.Calls.{lent_film_grain};
ghost use Rattle.capi_grain.specs.Promises.{ListsLeft};

use answers::number;
use film_grain::parse_film_grain_data;
use flat_grain::put_film_grain;
use lent::{place_of, put_place, settle_place};
use seq_fields::layout_of;

// The number of the interface.
const INTERFACE: u32 = 3;

#[unsafe(no_mangle)]
pub extern "C" fn mubanlig_grain_interface_3() -> u32
    ensures { result ≡ 3 }
{
    INTERFACE
}

#[unsafe(no_mangle)]
pub extern "C" fn mubanlig_parse_film_grain_data(
    s: &[u8],
    position: &mut usize,
    error: &mut u8,
    layout: u8,
    fgd: &mut [i16],
) -> u32
    ensures fgd_after { ((result ∷ position.new ∷ error.new ∷ []), fgd.new)
        ≡ lent_film_grain s.now position.old error.old layout fgd.old }
    ensures fgd_unchanged_at_4 { result ≡ 4 → fgd.new ≡ fgd.old }
    ensures fgd_unchanged_at_5 { result ≡ 5 → fgd.new ≡ fgd.old }
    ensures zeros_at_7 { result ≡ 7 → fgd.new ≡ replicate 186 (pos 0) ++ drop 186 fgd.old }
    ensures lists_left { result ≡ 0 → ListsLeft fgd.new }
{
    if fgd.len() < 186 {
        return 5;
    }
    if 3 < layout {
        settle_place(s, &mut *position, &mut *error);
        return 4;
    }
    let p = place_of(*position, *error);
    let r = parse_film_grain_data(s, p, layout_of(layout));
    put_place(r.next, &mut *position, &mut *error);
    put_film_grain(r.fgd, &mut *fgd);
    number(r.answer)
}
