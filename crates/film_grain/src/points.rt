// The points of the planes: a list goes into lent bytes.
ghost use Rattle.std.specs.Prelude.{true, false, [], ◌∷◌, ◌≡◌, ◌≤◌, ltb, pos, replicate};
ghost use Rattle.getbits.specs.Bits.{get_bits};
ghost use Rattle.getbits.specs.Chain.{pick};
ghost use Rattle.seq_fields.specs.Fields.{get_small};
ghost use Rattle.film_grain.specs.Inner.{lent_points, lists_end};
ghost use Rattle.film_grain.specs.Points.{has_points, no_points, points_from, plane_points, points_if, point_lists};

use getbits::{Place, look_ahead, more_than, power, read_bits, skip};
use seq_fields::get_small;

// The points of a plane, but for the list: how many, and the position that the last one read has.
#[derive(Clone, Copy)]
pub struct PointsEnd {
    pub refused: bool,
    pub num_points: u8,
    pub base: u32,
    pub next: Place,
}

// The points of the planes, but for the lists.
#[derive(Clone, Copy)]
pub struct ListsEnd {
    pub refused: bool,
    pub num_points: [u8; 3],
    pub next: Place,
}

// A point: the step to its position, its value, and the place after it.
#[derive(Clone, Copy)]
pub struct PointRead {
    pub step: u32,
    pub value: u8,
    pub next: Place,
}

// How many points there are, the widths of a step and of a value, and the place after these.
#[derive(Clone, Copy)]
pub struct PointWidths {
    pub num_points: u8,
    pub index_bits: u32,
    pub scaling_bits: u32,
    pub next: Place,
}

// Is a list of n points not empty?
pub fn has_points(n: u8) -> bool
    ensures { result ≡ has_points n }
{
    n != 0
}

// No points: the list is empty or refused.
fn no_points(refused: bool, p: Place) -> PointsEnd
    ensures { result ≡ record { refused = refused; num_points = 0; base = 0; next = p } }
{
    PointsEnd {
        refused,
        num_points: 0,
        base: 0,
        next: p,
    }
}

// The numbers of a point.
fn read_point(s: &[u8], p: Place, index_bits: u32, scaling_bits: u32) -> PointRead
    requires { (1 ≤ index_bits) × (index_bits ≤ 8) × (1 ≤ scaling_bits) × (scaling_bits ≤ 8) }
    ensures step_value { result.step ≡ (get_bits s.now p (pos index_bits)).value }
    ensures next_value { record { value = result.value; next = result.next } ≡ get_small s.now (get_bits s.now p (pos index_bits)).next scaling_bits }
{
    let both = index_bits + scaling_bits;
    if more_than(s, p, both) {
        let w = look_ahead(s, p, both);
        return PointRead {
            step: w >> scaling_bits,
            value: (w % power(scaling_bits)) as u8,
            next: skip(s, p, both),
        };
    }
    let step = read_bits(s, p, index_bits);
    let value = get_small(s, step.next, scaling_bits);
    PointRead {
        step: step.value,
        value: value.value,
        next: value.next,
    }
}

// n points; a position past 255 ends it.
fn read_points(
    s: &[u8],
    p: Place,
    n: u8,
    index_bits: u32,
    scaling_bits: u32,
    points: &mut [u8],
) -> PointsEnd
    requires { (n ≤ 14) × (1 ≤ index_bits) × (index_bits ≤ 8) × (1 ≤ scaling_bits) × (scaling_bits ≤ 8) × (points.old ≡ replicate 28 0) }
    ensures { lent_points result points.new ≡ points_from s.now p n index_bits scaling_bits }
{
    let mut base: u32 = 0;
    let mut next = p;
    for i in 0..n as usize {
        let r = read_point(s, next, index_bits, scaling_bits);
        base += r.step;
        if 255 < base {
            let step = read_bits(s, next, index_bits);
            return no_points(true, step.next);
        }
        points[2 * i] = base as u8;
        points[2 * i + 1] = r.value;
        next = r.next;
    }
    PointsEnd {
        refused: false,
        num_points: n,
        base,
        next,
    }
}

// How many points a plane has, and the widths if there are any: more than 14 are refused right behind their number.
fn point_widths(s: &[u8], p: Place) -> PointWidths
    ensures p_value { plane_points s.now p
        ≡ pick (ltb 14 result.num_points) (no_points 0 true result.next) (points_from s.now result.next result.num_points result.index_bits result.scaling_bits) }
    ensures bound { (1 ≤ result.index_bits) × (result.index_bits ≤ 8) × (1 ≤ result.scaling_bits) × (result.scaling_bits ≤ 8) }
{
    if more_than(s, p, 9) {
        let w = look_ahead(s, p, 9);
        let n = (w / 32) as u8;
        if (n == 0) | (14 < n) {
            return PointWidths {
                num_points: n,
                index_bits: 1,
                scaling_bits: 5,
                next: skip(s, p, 4),
            };
        }
        return PointWidths {
            num_points: n,
            index_bits: 1 + w / 4 % 8,
            scaling_bits: 5 + w % 4,
            next: skip(s, p, 9),
        };
    }
    let n = get_small(s, p, 4);
    if (n.value == 0) | (14 < n.value) {
        return PointWidths {
            num_points: n.value,
            index_bits: 1,
            scaling_bits: 5,
            next: n.next,
        };
    }
    let index = get_small(s, n.next, 3);
    let scaling = get_small(s, index.next, 2);
    PointWidths {
        num_points: n.value,
        index_bits: 1 + index.value as u32,
        scaling_bits: 5 + scaling.value as u32,
        next: scaling.next,
    }
}

// The points of a plane: how many, the widths of a step and of a value, and these.
fn plane_points(s: &[u8], p: Place, points: &mut [u8]) -> PointsEnd
    requires { points.old ≡ replicate 28 0 }
    ensures { lent_points result points.new ≡ plane_points s.now p }
{
    let w = point_widths(s, p);
    if 14 < w.num_points {
        return no_points(true, w.next);
    }
    read_points(
        s,
        w.next,
        w.num_points,
        w.index_bits,
        w.scaling_bits,
        &mut *points,
    )
}

// The same under a condition: else none, and the place as it was.
fn points_if(s: &[u8], p: Place, cond: bool, points: &mut [u8]) -> PointsEnd
    requires { points.old ≡ replicate 28 0 }
    ensures { lent_points result points.new ≡ points_if cond s.now p }
{
    if cond {
        plane_points(s, p, &mut *points)
    } else {
        no_points(false, p)
    }
}

// The lists of all planes; the chroma planes have none unless `chroma`. Behind a refusal nothing is read.
pub fn point_lists(
    s: &[u8],
    p: Place,
    chroma: bool,
    y_list: &mut [u8],
    u_list: &mut [u8],
    v_list: &mut [u8],
) -> ListsEnd
    requires { (y_list.old ≡ replicate 28 0) × (u_list.old ≡ replicate 28 0) × (v_list.old ≡ replicate 28 0) }
    ensures value { result ≡ lists_end (point_lists chroma s.now p) }
    ensures v_list_after { result.refused ≡ false → record { points = y_list.new } ∷ record { points = u_list.new } ∷ record { points = v_list.new } ∷ []
        ≡ (point_lists chroma s.now p).points }
{
    let y = points_if(s, p, true, &mut *y_list);
    let u = points_if(s, y.next, chroma & !y.refused, &mut *u_list);
    let v = points_if(s, u.next, chroma & !(y.refused | u.refused), &mut *v_list);
    ListsEnd {
        refused: y.refused | (u.refused | v.refused),
        num_points: [y.num_points, u.num_points, v.num_points],
        next: v.next,
    }
}
