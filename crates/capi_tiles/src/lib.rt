// The functions for Rust and C over layouts: numbers and slices only.
#![tactic(auto)]

ghost use Rattle.std.specs.Prelude.{true, [], ◌∷◌, ◌≡◌};
ghost use Rattle.flat.specs.Layout.{buffers, has_room, layout_in};
ghost use Rattle.lent.specs.Lent.{place_of};
ghost use Rattle.tile_layout.specs.Cleared.{Cleared};
ghost use Rattle.tile_layout.specs.Demand3.{Demand3};
ghost use Rattle.tile_layout.specs.Limits.{args_of, in_domain, unsigned};
ghost use Rattle.lent_tiles.specs.Calls.{lent_tile_info};
ghost use Rattle.lent_tiles.specs.Left.{tiles_left};
ghost use Rattle.capi_tiles.specs.Calls.{lent_rectangles};

use answers::number;
use flat::{has_room, tile_info_of};
use lent::{place_of, put_place};
use rectangles::tile_rectangles;
use tile_info::parse_tile_info_into;

// The number of the interface.
const INTERFACE: u32 = 3;

#[unsafe(no_mangle)]
pub extern "C" fn mubanlig_tiles_interface_3() -> u32
    ensures { result ≡ 3 }
{
    INTERFACE
}

#[unsafe(no_mangle)]
pub extern "C" fn mubanlig_parse_tile_info(
    s: &[u8],
    position: &mut usize,
    error: &mut u8,
    info: &mut [u8],
    col_start_sb: &mut [u16],
    row_start_sb: &mut [u16],
    sbmul: i32,
    sb128: u8,
    seq_sb128: u8,
    w: i32,
    h: i32,
    level: u8,
    tier: u8,
) -> u32
    ensures outcome { let before = buffers info.old col_start_sb.old row_start_sb.old in
        let after = buffers info.new col_start_sb.new row_start_sb.new in
        ((result ∷ position.new ∷ error.new ∷ []), after)
        ≡ lent_tile_info s.now position.old error.old before (args_of sbmul sb128 seq_sb128 w h level tier) }
    ensures info_unchanged { (result ≡ 0 → ⊥) → info.new ≡ info.old }
    ensures col_start_sb_unchanged { (result ≡ 0 → ⊥) → col_start_sb.new ≡ col_start_sb.old }
    ensures row_start_sb_unchanged { (result ≡ 0 → ⊥) → row_start_sb.new ≡ row_start_sb.old }
    ensures demand3 { let before = buffers info.old col_start_sb.old row_start_sb.old in
        let after = buffers info.new col_start_sb.new row_start_sb.new in
        let args = args_of sbmul sb128 seq_sb128 w h level tier in
        (has_room before ≡ true → in_domain args ≡ true
        → Demand3 s.now (place_of position.old error.old) args
        (tiles_left result after (place_of position.new error.new))) }
    ensures cleared { result ≡ 0 → Cleared (layout_in (buffers info.new col_start_sb.new row_start_sb.new)) }
{
    if !has_room(&*info, &*col_start_sb, &*row_start_sb) {
        return 5;
    }
    let p = place_of(*position, *error);
    let r = parse_tile_info_into(
        s,
        p,
        &mut *info,
        &mut *col_start_sb,
        &mut *row_start_sb,
        sbmul,
        sb128,
        seq_sb128,
        w,
        h,
        level,
        tier,
    );
    put_place(r.next, &mut *position, &mut *error);
    number(r.answer)
}

#[unsafe(no_mangle)]
pub extern "C" fn mubanlig_tile_rectangles(
    info: &[u8],
    col_start_sb: &[u16],
    row_start_sb: &[u16],
    sb128: u8,
    w: i32,
    h: i32,
    out: &mut [u32],
) -> u32
    ensures out_after { let before = buffers info.now col_start_sb.now row_start_sb.now in
        (result, out.new) ≡ lent_rectangles before sb128 (unsigned w) (unsigned h) out.old }
    ensures out_unchanged { (result ≡ 0 → ⊥) → out.new ≡ out.old }
{
    if !has_room(info, col_start_sb, row_start_sb) {
        return 5;
    }
    let t = tile_info_of(info, col_start_sb, row_start_sb);
    number(tile_rectangles(t, sb128, w, h, &mut *out))
}
