// The exports of capi as a static library: each calls the function there, and promises the same.
#![tactic(auto)]

ghost use Rattle.std.specs.Prelude.{[], ◌∷◌, ◌++◌, ◌≡◌, ◌≤◌, pos, replicate, drop};
ghost use Rattle.flat.specs.Layout.{buffers};
ghost use Rattle.lent.specs.Lent.{place_of};
ghost use Rattle.tile_layout.specs.Limits.{args_of};
ghost use Rattle.capi.specs.Promises.{HeaderLeft};
ghost use Rattle.capi.specs.Calls.{lent_seg_info, lent_header, lent_write};

#[unsafe(no_mangle)]
pub extern "C" fn mubanlig_interface_3() -> u32
    ensures { result ≡ 3 }
{
    capi::mubanlig_interface_3()
}

// The same, by the name that it had in the writer's own archive.
#[unsafe(no_mangle)]
pub extern "C" fn mubanlig_write_interface_3() -> u32
    ensures { result ≡ 3 }
{
    capi::mubanlig_write_interface_3()
}

#[unsafe(no_mangle)]
pub extern "C" fn mubanlig_parse_seg_info(
    s: &[u8],
    position: &mut usize,
    error: &mut u8,
    delta_q: &mut [i16],
    masks: &mut [u16],
    ext: u8,
) -> u32
    ensures masks_after { ((result ∷ position.new ∷ error.new ∷ []), delta_q.new, masks.new)
        ≡ lent_seg_info s.now position.old error.old delta_q.old masks.old ext }
    ensures delta_q_unchanged { (result ≡ 0 → ⊥) → delta_q.new ≡ delta_q.old }
    ensures masks_unchanged { (result ≡ 0 → ⊥) → masks.new ≡ masks.old }
{
    capi::mubanlig_parse_seg_info(
        s,
        &mut *position,
        &mut *error,
        &mut *delta_q,
        &mut *masks,
        ext,
    )
}

#[unsafe(no_mangle)]
pub extern "C" fn mubanlig_parse_seq_hdr(
    s: &[u8],
    position: &mut usize,
    error: &mut u8,
    strict: u8,
    hdr: &mut [i64],
    info: &mut [u8],
    col_start_sb: &mut [u16],
    row_start_sb: &mut [u16],
) -> u32
    ensures outcome { let before = buffers info.old col_start_sb.old row_start_sb.old in
        let after = buffers info.new col_start_sb.new row_start_sb.new in
        ((result ∷ position.new ∷ error.new ∷ []), hdr.new, after)
        ≡ lent_header s.now position.old error.old strict hdr.old before }
    ensures hdr_unchanged { result ≡ 5 → hdr.new ≡ hdr.old }
    ensures info_unchanged { result ≡ 5 → info.new ≡ info.old }
    ensures col_start_sb_unchanged { result ≡ 5 → col_start_sb.new ≡ col_start_sb.old }
    ensures row_start_sb_unchanged { result ≡ 5 → row_start_sb.new ≡ row_start_sb.old }
    ensures hdr_after { 1 ≤ result → result ≤ 3 → hdr.new ≡ replicate 146 (pos 0) ++ drop 146 hdr.old }
    ensures info_after { 1 ≤ result → result ≤ 3 → info.new ≡ replicate 9 0 ++ drop 9 info.old }
    ensures col_start_sb_after { 1 ≤ result → result ≤ 3 → col_start_sb.new ≡ replicate 65 0 ++ drop 65 col_start_sb.old }
    ensures row_start_sb_after { 1 ≤ result → result ≤ 3 → row_start_sb.new ≡ replicate 65 0 ++ drop 65 row_start_sb.old }
    ensures header_left { let after = buffers info.new col_start_sb.new row_start_sb.new in
        ((result ≡ 5 → ⊥) → HeaderLeft s.now (place_of position.old error.old) result after) }
{
    capi::mubanlig_parse_seq_hdr(
        s,
        &mut *position,
        &mut *error,
        strict,
        &mut *hdr,
        &mut *info,
        &mut *col_start_sb,
        &mut *row_start_sb,
    )
}

#[unsafe(no_mangle)]
pub extern "C" fn mubanlig_write_tile_info(
    info: &[u8],
    col_start_sb: &[u16],
    row_start_sb: &[u16],
    sbmul: i32,
    sb128: u8,
    seq_sb128: u8,
    w: i32,
    h: i32,
    level: u8,
    tier: u8,
    out: &mut [u8],
    bits: &mut u32,
) -> u32
    ensures out_after { let before = buffers info.now col_start_sb.now row_start_sb.now in
        (result, bits.new, out.new) ≡ lent_write before (args_of sbmul sb128 seq_sb128 w h level tier) out.old }
    ensures out_unchanged { (result ≡ 0 → ⊥) → out.new ≡ out.old }
    ensures bits_after { (result ≡ 0 → ⊥) → bits.new ≡ 0 }
{
    capi::mubanlig_write_tile_info(
        info,
        col_start_sb,
        row_start_sb,
        sbmul,
        sb128,
        seq_sb128,
        w,
        h,
        level,
        tier,
        &mut *out,
        &mut *bits,
    )
}
