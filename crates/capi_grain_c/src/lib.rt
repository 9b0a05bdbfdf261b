// The exports of capi_grain as a static library: each calls the function there, and promises the same.
#![tactic(auto)]

ghost use Rattle.std.specs.Prelude.{[], ◌∷◌, ◌++◌, ◌≡◌, pos, replicate, drop};
ghost use Rattle.capi_grain.specs.Calls.{lent_film_grain};
ghost use Rattle.capi_grain.specs.Promises.{ListsLeft};

#[unsafe(no_mangle)]
pub extern "C" fn mubanlig_grain_interface_3() -> u32
    ensures { result ≡ 3 }
{
    capi_grain::mubanlig_grain_interface_3()
}

#[unsafe(no_mangle)]
pub extern "C" fn mubanlig_parse_film_grain_data(
    s: &[u8],
    position: &mut usize,
    error: &mut u8,
    layout: u8,
    fgd: &mut [i16],
) -> u32
    ensures fgd_after { ((result ∷ position.new ∷ error.new ∷ []), fgd.new)
        ≡ lent_film_grain s.now position.old error.old layout fgd.old }
    ensures fgd_unchanged_at_4 { result ≡ 4 → fgd.new ≡ fgd.old }
    ensures fgd_unchanged_at_5 { result ≡ 5 → fgd.new ≡ fgd.old }
    ensures zeros_at_7 { result ≡ 7 → fgd.new ≡ replicate 186 (pos 0) ++ drop 186 fgd.old }
    ensures lists_left { result ≡ 0 → ListsLeft fgd.new }
{
    capi_grain::mubanlig_parse_film_grain_data(s, &mut *position, &mut *error, layout, &mut *fgd)
}
