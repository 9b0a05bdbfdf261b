// The exports of capi_bits as a static library: each calls the function there, and promises the same.
#![tactic(auto)]

ghost use Rattle.std.specs.Prelude.{◌≡◌, ◌-◌, [], ◌∷◌, length, pos};
ghost use Rattle.codes.specs.Codes.{get_vlc, get_uniform, get_ref_uniform, get_uleb128, get_golomb, get_bits_subexp_u, get_bits_subexp};
ghost use Rattle.getbits.specs.Bits.{get_bit, get_bits, get_sbits, byte_pos, byte_align};
ghost use Rattle.lent.specs.Lent.{place_of, position_of};
ghost use Rattle.capi_bits.specs.Numbers.{lent_number, lent_signed};

#[unsafe(no_mangle)]
pub extern "C" fn mubanlig_bits_interface_3() -> u32
    ensures { result ≡ 3 }
{
    capi_bits::mubanlig_bits_interface_3()
}

#[unsafe(no_mangle)]
pub extern "C" fn mubanlig_get_bit(s: &[u8], position: &mut usize, error: &mut u8) -> u32
    ensures { (result ∷ position.new ∷ error.new ∷ [])
        ≡ lent_number (get_bit s.now (place_of position.old error.old)) error.old }
{
    capi_bits::mubanlig_get_bit(s, &mut *position, &mut *error)
}

#[unsafe(no_mangle)]
pub extern "C" fn mubanlig_get_bits(s: &[u8], position: &mut usize, error: &mut u8, n: i32) -> u32
    ensures { (result ∷ position.new ∷ error.new ∷ [])
        ≡ lent_number (get_bits s.now (place_of position.old error.old) n) error.old }
{
    capi_bits::mubanlig_get_bits(s, &mut *position, &mut *error, n)
}

#[unsafe(no_mangle)]
pub extern "C" fn mubanlig_get_sbits(s: &[u8], position: &mut usize, error: &mut u8, n: i32) -> i32
    ensures { (result ∷ pos position.new ∷ pos error.new ∷ [])
        ≡ lent_signed (get_sbits s.now (place_of position.old error.old) n) error.old }
{
    capi_bits::mubanlig_get_sbits(s, &mut *position, &mut *error, n)
}

#[unsafe(no_mangle)]
pub extern "C" fn mubanlig_get_vlc(s: &[u8], position: &mut usize, error: &mut u8) -> u32
    ensures { (result ∷ position.new ∷ error.new ∷ [])
        ≡ lent_number (get_vlc s.now (place_of position.old error.old)) error.old }
{
    capi_bits::mubanlig_get_vlc(s, &mut *position, &mut *error)
}

#[unsafe(no_mangle)]
pub extern "C" fn mubanlig_get_uniform(
    s: &[u8],
    position: &mut usize,
    error: &mut u8,
    max: u32,
) -> u32
    ensures { (result ∷ position.new ∷ error.new ∷ [])
        ≡ lent_number (get_uniform s.now (place_of position.old error.old) max) error.old }
{
    capi_bits::mubanlig_get_uniform(s, &mut *position, &mut *error, max)
}

#[unsafe(no_mangle)]
pub extern "C" fn mubanlig_get_ref_uniform(
    s: &[u8],
    position: &mut usize,
    error: &mut u8,
    max: u32,
    def: u32,
) -> u32
    ensures { (result ∷ position.new ∷ error.new ∷ [])
        ≡ lent_number (get_ref_uniform s.now (place_of position.old error.old) max def) error.old }
{
    capi_bits::mubanlig_get_ref_uniform(s, &mut *position, &mut *error, max, def)
}

#[unsafe(no_mangle)]
pub extern "C" fn mubanlig_get_uleb128(s: &[u8], position: &mut usize, error: &mut u8) -> u32
    ensures { (result ∷ position.new ∷ error.new ∷ [])
        ≡ lent_number (get_uleb128 s.now (place_of position.old error.old)) error.old }
{
    capi_bits::mubanlig_get_uleb128(s, &mut *position, &mut *error)
}

#[unsafe(no_mangle)]
pub extern "C" fn mubanlig_get_golomb(s: &[u8], position: &mut usize, error: &mut u8, k: u32) -> u32
    ensures { (result ∷ position.new ∷ error.new ∷ [])
        ≡ lent_number (get_golomb s.now (place_of position.old error.old) k) error.old }
{
    capi_bits::mubanlig_get_golomb(s, &mut *position, &mut *error, k)
}

#[unsafe(no_mangle)]
pub extern "C" fn mubanlig_get_bits_subexp_u(
    s: &[u8],
    position: &mut usize,
    error: &mut u8,
    ref_val: u32,
    n: u32,
    k: i32,
) -> u32
    ensures { (result ∷ position.new ∷ error.new ∷ [])
        ≡ lent_number (get_bits_subexp_u s.now (place_of position.old error.old) ref_val n k) error.old }
{
    capi_bits::mubanlig_get_bits_subexp_u(s, &mut *position, &mut *error, ref_val, n, k)
}

#[unsafe(no_mangle)]
pub extern "C" fn mubanlig_get_bits_subexp(
    s: &[u8],
    position: &mut usize,
    error: &mut u8,
    ref_val: i32,
    n: u32,
) -> i32
    ensures { (result ∷ pos position.new ∷ pos error.new ∷ [])
        ≡ lent_signed (get_bits_subexp s.now (place_of position.old error.old) ref_val n) error.old }
{
    capi_bits::mubanlig_get_bits_subexp(s, &mut *position, &mut *error, ref_val, n)
}

#[unsafe(no_mangle)]
pub extern "C" fn mubanlig_bytealign(s: &[u8], position: &mut usize)
    ensures { position.new ≡ position_of (byte_align s.now (place_of position.old 0)) }
{
    capi_bits::mubanlig_bytealign(s, &mut *position)
}

#[unsafe(no_mangle)]
pub extern "C" fn mubanlig_byte_pos(s: &[u8], position: usize) -> usize
    ensures { result ≡ byte_pos s.now (place_of position 0) }
{
    capi_bits::mubanlig_byte_pos(s, position)
}

#[unsafe(no_mangle)]
pub extern "C" fn mubanlig_remaining_bytes(s: &[u8], position: usize) -> usize
    ensures { result ≡ length s.now - byte_pos s.now (place_of position 0) }
{
    capi_bits::mubanlig_remaining_bytes(s, position)
}
