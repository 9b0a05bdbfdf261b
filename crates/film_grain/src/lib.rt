// Film grain parameters: the Rust's parse_film_grain_data.
#![tactic(auto)]

ghost use Rattle.std.specs.Prelude.{◌≡◌, pos, replicate};
ghost use Rattle.film_grain.specs.Grain.{no_film_grain, refused_grain, is_i420, one_list_empty, grain_fields, parse_film_grain_data};
ghost use Rattle.film_grain.specs.Inner.{coeff_lists, grain_read};
ghost use Rattle.film_grain.specs.Points.{PointLists};
ghost use Rattle.film_grain.specs.Promises.{GrainLists};

use answers::Answer;
use getbits::{Place, flag_if, get_flag};
use seq_fields::{PixelLayout, get_small, is_mono};

mod coeffs;
mod points;

use coeffs::{chroma_offsets, plane_coeffs};
use points::{has_points, point_lists};

// The Rust's [[u8; 2]; 14] in its order: point i has its position at 2 i and its value at 2 i + 1.
#[derive(Clone, Copy)]
pub struct PlanePoints {
    pub points: [u8; 28],
}

// The Rust's [i8; 28].
#[derive(Clone, Copy)]
pub struct PlaneCoeffs {
    pub coeffs: [i8; 28],
}

// A record of the Rust's fields, luma first and then both chroma planes.
#[derive(Clone, Copy)]
pub struct FilmGrainData {
    pub chroma_scaling_from_luma: bool,
    pub num_points: [u8; 3],
    pub points: [PlanePoints; 3],
    pub scaling_shift: u8,
    pub ar_coeff_lag: u8,
    pub ar_coeffs: [PlaneCoeffs; 3],
    pub ar_coeff_shift: u8,
    pub grain_scale_shift: u8,
    pub uv_mult: [i16; 2],
    pub uv_luma_mult: [i16; 2],
    pub uv_offset: [i16; 2],
    pub overlap_flag: bool,
    pub clip_to_restricted_range: bool,
    pub mc_identity: bool,
    pub block_size: u8,
}

#[derive(Clone, Copy)]
pub struct FilmGrainRead {
    pub answer: Answer,
    pub fgd: FilmGrainData,
    pub next: Place,
}

// The fields behind the point lists, but for the coefficients, and the place after them.
#[derive(Clone, Copy)]
struct GrainFields {
    scaling_shift: u8,
    ar_coeff_lag: u8,
    ar_coeff_shift: u8,
    grain_scale_shift: u8,
    uv_mult: [i16; 2],
    uv_luma_mult: [i16; 2],
    uv_offset: [i16; 2],
    overlap_flag: bool,
    clip_to_restricted_range: bool,
    mc_identity: bool,
    block_size: u8,
    next: Place,
}

// The zero record.
pub fn no_film_grain() -> FilmGrainData
    ensures { result ≡ no_film_grain }
{
    let points = PlanePoints { points: [0u8; 28] };
    let coeffs = PlaneCoeffs { coeffs: [0i8; 28] };
    FilmGrainData {
        chroma_scaling_from_luma: false,
        num_points: [0u8; 3],
        points: [points, points, points],
        scaling_shift: 0,
        ar_coeff_lag: 0,
        ar_coeffs: [coeffs, coeffs, coeffs],
        ar_coeff_shift: 0,
        grain_scale_shift: 0,
        uv_mult: [0i16; 2],
        uv_luma_mult: [0i16; 2],
        uv_offset: [0i16; 2],
        overlap_flag: false,
        clip_to_restricted_range: false,
        mc_identity: false,
        block_size: 0,
    }
}

// Refused: the zero record.
fn refuse_grain(p: Place) -> FilmGrainRead
    ensures { result ≡ refused_grain p }
{
    let fgd = no_film_grain();
    FilmGrainRead {
        answer: Answer::InvalidFilmGrainData,
        fgd,
        next: p,
    }
}

fn is_i420(layout: PixelLayout) -> bool
    ensures { result ≡ is_i420 layout }
{
    layout == PixelLayout::I420
}

// I420 only: is one chroma list empty and the other not?
fn one_list_empty(layout: PixelLayout, num_points: [u8; 3]) -> bool
    ensures { result ≡ one_list_empty layout num_points }
{
    let u = has_points(num_points[1]);
    let v = has_points(num_points[2]);
    is_i420(layout) & ((u & !v) | (!u & v))
}

// The fields behind the point lists; the coefficients go into lent bytes.
fn read_fields(
    s: &[u8],
    p: Place,
    from_luma: bool,
    num_points: [u8; 3],
    y_coeffs: &mut [i8],
    u_coeffs: &mut [i8],
    v_coeffs: &mut [i8],
) -> GrainFields
    requires { (y_coeffs.old ≡ replicate 28 (pos 0)) × (u_coeffs.old ≡ replicate 28 (pos 0)) × (v_coeffs.old ≡ replicate 28 (pos 0)) }
    ensures { (lists : PointLists) → lists.num_points ≡ num_points → lists.next ≡ p → grain_fields from_luma s.now lists
        ≡ grain_read from_luma num_points lists.points (coeff_lists y_coeffs.new u_coeffs.new v_coeffs.new) result }
{
    let scaling = get_small(s, p, 2);
    let lag = get_small(s, scaling.next, 2);
    let coeffs_end = plane_coeffs(
        s,
        lag.next,
        from_luma,
        num_points,
        lag.value,
        &mut *y_coeffs,
        &mut *u_coeffs,
        &mut *v_coeffs,
    );
    let shift = get_small(s, coeffs_end, 2);
    let scale = get_small(s, shift.next, 2);
    let uv = chroma_offsets(s, scale.next, num_points);
    let overlap = get_flag(s, uv.next);
    let clip = get_flag(s, overlap.next);
    let identity = flag_if(s, clip.next, clip.value);
    let block = get_small(s, identity.next, 1);
    let uv_mult = uv.uv_mult;
    let uv_luma_mult = uv.uv_luma_mult;
    let uv_offset = uv.uv_offset;
    GrainFields {
        scaling_shift: 8 + scaling.value,
        ar_coeff_lag: lag.value,
        ar_coeff_shift: 6 + shift.value,
        grain_scale_shift: scale.value,
        uv_mult,
        uv_luma_mult,
        uv_offset,
        overlap_flag: overlap.value,
        clip_to_restricted_range: clip.value,
        mc_identity: identity.value,
        block_size: block.value,
        next: block.next,
    }
}

pub fn parse_film_grain_data(s: &[u8], p: Place, layout: PixelLayout) -> FilmGrainRead
    ensures value { result ≡ parse_film_grain_data s.now p layout }
    ensures grain_lists { GrainLists result.fgd }
{
    let chroma = !is_mono(layout);
    let from_luma = flag_if(s, p, chroma);
    let mut y_points = [0u8; 28];
    let mut u_points = [0u8; 28];
    let mut v_points = [0u8; 28];
    let lists = point_lists(
        s,
        from_luma.next,
        chroma & !from_luma.value,
        &mut y_points,
        &mut u_points,
        &mut v_points,
    );
    let num_points = lists.num_points;
    if lists.refused | one_list_empty(layout, num_points) {
        return refuse_grain(lists.next);
    }
    let mut y_coeffs = [0i8; 28];
    let mut u_coeffs = [0i8; 28];
    let mut v_coeffs = [0i8; 28];
    let fields = read_fields(
        s,
        lists.next,
        from_luma.value,
        num_points,
        &mut y_coeffs,
        &mut u_coeffs,
        &mut v_coeffs,
    );
    let next = fields.next;
    if next.error {
        return refuse_grain(next);
    }
    let y_points = PlanePoints { points: y_points };
    let u_points = PlanePoints { points: u_points };
    let v_points = PlanePoints { points: v_points };
    let y_coeffs = PlaneCoeffs { coeffs: y_coeffs };
    let u_coeffs = PlaneCoeffs { coeffs: u_coeffs };
    let v_coeffs = PlaneCoeffs { coeffs: v_coeffs };
    let uv_mult = fields.uv_mult;
    let uv_luma_mult = fields.uv_luma_mult;
    let uv_offset = fields.uv_offset;
    FilmGrainRead {
        answer: Answer::Accepted,
        fgd: FilmGrainData {
            chroma_scaling_from_luma: from_luma.value,
            num_points,
            points: [y_points, u_points, v_points],
            scaling_shift: fields.scaling_shift,
            ar_coeff_lag: fields.ar_coeff_lag,
            ar_coeffs: [y_coeffs, u_coeffs, v_coeffs],
            ar_coeff_shift: fields.ar_coeff_shift,
            grain_scale_shift: fields.grain_scale_shift,
            uv_mult,
            uv_luma_mult,
            uv_offset,
            overlap_flag: fields.overlap_flag,
            clip_to_restricted_range: fields.clip_to_restricted_range,
            mc_identity: fields.mc_identity,
            block_size: fields.block_size,
        },
        next,
    }
}
