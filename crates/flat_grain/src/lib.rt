// Film grain parameters as flat numbers: the record's fields in the order of its declaration.
#![tactic(auto)]

ghost use Rattle.std.specs.Prelude.{map, ◌≡◌, ℕ, ◌+◌, ◌<◌, ◌≤◌, pos, length};
ghost use Rattle.flat.specs.Layout.{over_front};
ghost use Rattle.flat.specs.Rows.{PutAt};
ghost use Rattle.flat_grain.specs.Grain.{flat_head, flat_plane, flat_points, flat_coeffs, flat_offsets, flat_tail, flat_film_grain, flat_pair, HasLists};

use film_grain::{FilmGrainData, PlaneCoeffs, PlanePoints};
use flat::put_row;

// Bytes go into the buffer from `at` on; the place behind them.
fn put_bytes(out: &mut [i16], at: usize, xs: &[u8]) -> usize
    requires { at + length xs.now ≤ length out.old }
    ensures { PutAt out.old at (map pos xs.now) (length xs.now) out.new result }
{
    put_row(&mut *out, at, xs)
}

fn put_pair(out: &mut [i16], at: usize, xs: [i16; 2]) -> usize
    requires { at + 2 ≤ length out.old }
    ensures { PutAt out.old at (flat_pair xs) 2 out.new result }
{
    put_row(&mut *out, at, &xs)
}

fn put_head(out: &mut [i16], at: usize, fgd: FilmGrainData) -> usize
    requires { at + 4 ≤ length out.old }
    ensures { PutAt out.old at (flat_head fgd) 4 out.new result }
{
    let xs: [u8; 4] = [
        fgd.chroma_scaling_from_luma as u8,
        fgd.num_points[0],
        fgd.num_points[1],
        fgd.num_points[2],
    ];
    put_bytes(&mut *out, at, &xs)
}

fn put_plane(out: &mut [i16], at: usize, list: PlanePoints) -> usize
    requires { at + 28 ≤ length out.old }
    ensures { PutAt out.old at (map pos list.points) 28 out.new result }
{
    put_bytes(&mut *out, at, &list.points)
}

fn put_points(out: &mut [i16], at: usize, points: [PlanePoints; 3]) -> usize
    requires { at + 84 ≤ length out.old }
    ensures put_at { PutAt out.old at (flat_points points) 84 out.new result }
    ensures by_index { (pl : ℕ) → pl < 3 → length (flat_plane points pl) ≡ 28 }
{
    let at = put_plane(&mut *out, at, points[0]);
    let at = put_plane(&mut *out, at, points[1]);
    put_plane(&mut *out, at, points[2])
}

fn put_plane_coeffs(out: &mut [i16], at: usize, list: PlaneCoeffs) -> usize
    requires { at + 28 ≤ length out.old }
    ensures { PutAt out.old at list.coeffs 28 out.new result }
{
    put_row(&mut *out, at, &list.coeffs)
}

fn put_ar_coeffs(out: &mut [i16], at: usize, ar_coeffs: [PlaneCoeffs; 3]) -> usize
    requires { at + 84 ≤ length out.old }
    ensures { PutAt out.old at (flat_coeffs ar_coeffs) 84 out.new result }
{
    let at = put_plane_coeffs(&mut *out, at, ar_coeffs[0]);
    let at = put_plane_coeffs(&mut *out, at, ar_coeffs[1]);
    put_plane_coeffs(&mut *out, at, ar_coeffs[2])
}

fn put_offsets(out: &mut [i16], at: usize, fgd: FilmGrainData) -> usize
    requires { at + 6 ≤ length out.old }
    ensures { PutAt out.old at (flat_offsets fgd) 6 out.new result }
{
    let at = put_pair(&mut *out, at, fgd.uv_mult);
    let at = put_pair(&mut *out, at, fgd.uv_luma_mult);
    put_pair(&mut *out, at, fgd.uv_offset)
}

fn put_tail(out: &mut [i16], at: usize, fgd: FilmGrainData) -> usize
    requires { at + 4 ≤ length out.old }
    ensures { PutAt out.old at (flat_tail fgd) 4 out.new result }
{
    let xs: [u8; 4] = [
        fgd.overlap_flag as u8,
        fgd.clip_to_restricted_range as u8,
        fgd.mc_identity as u8,
        fgd.block_size,
    ];
    put_bytes(&mut *out, at, &xs)
}

fn put_fields(out: &mut [i16], at: usize, fgd: FilmGrainData) -> usize
    requires { at + 186 ≤ length out.old }
    ensures put_at { PutAt out.old at (flat_film_grain fgd) 186 out.new result }
    ensures by_index { (pl : ℕ) → pl < 3 → length (flat_plane fgd.points pl) ≡ 28 }
{
    let scaling: [u8; 2] = [fgd.scaling_shift, fgd.ar_coeff_lag];
    let shifts: [u8; 2] = [fgd.ar_coeff_shift, fgd.grain_scale_shift];
    let at = put_head(&mut *out, at, fgd);
    let at = put_points(&mut *out, at, fgd.points);
    let at = put_bytes(&mut *out, at, &scaling);
    let at = put_ar_coeffs(&mut *out, at, fgd.ar_coeffs);
    let at = put_bytes(&mut *out, at, &shifts);
    let at = put_offsets(&mut *out, at, fgd);
    put_tail(&mut *out, at, fgd)
}

pub fn put_film_grain(fgd: FilmGrainData, out: &mut [i16])
    ensures out_after { out.new ≡ over_front 186 (flat_film_grain fgd) out.old }
    ensures has_lists { 186 ≤ length out.old → HasLists out.new fgd }
{
    if out.len() < 186 {
        return;
    }
    put_fields(&mut *out, 0, fgd);
}
