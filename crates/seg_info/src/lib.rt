// The features of the segments.
#![tactic(auto)]

ghost use Rattle.std.specs.Prelude.{◌≡◌, ◌+◌, ◌%◌, ◌<◌, ◌≤◌, length};
ghost use Rattle.getbits.specs.Bits.{bit_count, position, signed_of};
ghost use Rattle.getbits.specs.Chain.{pick, turns};
ghost use Rattle.seg_info.specs.Seg.{clamped, delta_if, marked, segment, parse_seg_info, no_seg_info};
ghost use Rattle.seg_info.specs.Inner.{FeaturesOf, lent_seg, lent_read, segment_bits, with_features};

use getbits::{Place, Read, get_flag, get_sbits, look_ahead, more_than, skip};

#[derive(Clone, Copy)]
pub struct SegmentationDataSet {
    pub delta_q: [i16; 16],
    pub delta_q_mask: u16,
    pub skip_mask: u16,
    pub globalmv_mask: u16,
}

// The features of one segment.
#[derive(Clone, Copy)]
struct Features {
    changed: bool,
    delta: i16,
    skip: bool,
    globalmv: bool,
}

// The masks of a record, whose deltas are lent.
#[derive(Clone, Copy)]
struct Masks {
    delta_q_mask: u16,
    skip_mask: u16,
    globalmv_mask: u16,
}

pub fn no_seg_info() -> SegmentationDataSet
    ensures { result ≡ no_seg_info }
{
    SegmentationDataSet {
        delta_q: [0i16; 16],
        delta_q_mask: 0,
        skip_mask: 0,
        globalmv_mask: 0,
    }
}

fn clamp(v: i32) -> i16
    ensures { result ≡ clamped v }
{
    if v < -351 {
        return -351;
    }
    if 351 < v {
        return 351;
    }
    v as i16
}

fn delta_if(s: &[u8], p: Place, cond: bool) -> Read<i16>
    ensures { result ≡ delta_if cond s.now p }
{
    if cond {
        let d = get_sbits(s, p, 10);
        return Read {
            value: clamp(d.value),
            next: d.next,
        };
    }
    Read { value: 0, next: p }
}

// A flag as a number.
fn bit(flag: bool) -> u16
    ensures { result ≡ pick flag 1 0 }
{
    u16::from(flag)
}

// Bit n is ORed on, if the flag is set.
fn mark(mask: u16, n: usize, flag: bool) -> u16
    requires { n < 16 }
    ensures { result ≡ marked flag n mask }
{
    mask | (bit(flag) << n)
}

// A segment's features are written over a record.
fn put(n: usize, f: Features, masks: Masks, delta_q: &mut [i16]) -> Masks
    requires { (n < 16) × (length delta_q.old ≡ 16) }
    ensures { lent_seg delta_q.new result ≡ with_features f n (lent_seg delta_q.old masks) }
{
    let after = Masks {
        delta_q_mask: mark(masks.delta_q_mask, n, f.changed),
        skip_mask: mark(masks.skip_mask, n, f.skip),
        globalmv_mask: mark(masks.globalmv_mask, n, f.globalmv),
    };
    let delta = f.delta;
    if f.changed {
        delta_q[n] = delta;
        return after;
    }
    after
}

// A segment's bits, one by one.
fn read_segment(s: &[u8], n: usize, r: Read<Masks>, delta_q: &mut [i16]) -> Read<Masks>
    requires { (n < 16) × (length delta_q.old ≡ 16) }
    ensures { lent_read delta_q.new result ≡ segment s.now n (lent_read delta_q.old r) }
{
    let changed = get_flag(s, r.next);
    let delta = delta_if(s, changed.next, changed.value);
    let skip = get_flag(s, delta.next);
    let globalmv = get_flag(s, skip.next);
    let f = Features {
        changed: changed.value,
        delta: delta.value,
        skip: skip.value,
        globalmv: globalmv.value,
    };
    let masks = put(n, f, r.value, &mut *delta_q);
    Read {
        value: masks,
        next: globalmv.next,
    }
}

// The number of ten bits with the top one as sign.
fn ten_bits(v: u32) -> i32
    requires { v < 2048 }
    ensures { result ≡ signed_of 10 (v % 1024) }
{
    ((v + 512) % 1024) as i32 - 512
}

// The features out of a segment's first 13 bits: without a delta it has three.
fn features_of(bits: u32) -> Features
    requires { bits < 8192 }
    ensures { FeaturesOf bits result }
{
    if bits < 4096 {
        return Features {
            changed: false,
            delta: 0,
            skip: bits / 2048 % 2 == 1,
            globalmv: bits / 1024 % 2 == 1,
        };
    }
    Features {
        changed: true,
        delta: clamp(ten_bits(bits / 4)),
        skip: bits / 2 % 2 == 1,
        globalmv: bits % 2 == 1,
    }
}

// How many bits a segment has.
fn segment_bits(changed: bool) -> u32
    ensures { (result ≡ segment_bits changed) × (result ≤ 13) }
{
    if changed { 13 } else { 3 }
}

// Two segments out of one word.
fn two_segments(s: &[u8], n: usize, r: Read<Masks>, delta_q: &mut [i16]) -> Read<Masks>
    requires { (n + 1 < 16) × (length delta_q.old ≡ 16) × (position s.now r.next + 32 ≤ bit_count s.now) }
    ensures { lent_read delta_q.new result ≡ segment s.now (n + 1) (segment s.now n (lent_read delta_q.old r)) }
{
    let word = look_ahead(s, r.next, 32);
    let a = features_of(word >> 19);
    let first = put(n, a, r.value, &mut *delta_q);
    let used = segment_bits(a.changed);
    let b = features_of(word << used >> 19);
    let masks = put(n + 1, b, first, &mut *delta_q);
    let next = skip(s, r.next, used + segment_bits(b.changed));
    Read { value: masks, next }
}

// n segments: two at a time where more than 56 bits are left, which are eight bytes at any place.
fn read_segments(s: &[u8], n: usize, r: Read<Masks>, delta_q: &mut [i16]) -> Read<Masks>
    requires { (n ≤ 16) × (length delta_q.old ≡ 16) }
    ensures { lent_read delta_q.new result ≡ turns n (segment s.now) (lent_read delta_q.old r) }
{
    let mut a = r;
    let mut i: usize = 0;
    while i < n {
        if (i + 2 <= n) & more_than(s, a.next, 56) {
            a = two_segments(s, i, a, &mut *delta_q);
            i += 2;
        } else {
            a = read_segment(s, i, a, &mut *delta_q);
            i += 1;
        }
    }
    a
}

// 8 segments, 16 with the extension.
pub fn parse_seg_info(
    s: &[u8],
    p: Place,
    seg: SegmentationDataSet,
    ext: bool,
) -> Read<SegmentationDataSet>
    ensures { result ≡ parse_seg_info s.now p seg ext }
{
    let mut delta_q = seg.delta_q;
    let masks = Masks {
        delta_q_mask: seg.delta_q_mask,
        skip_mask: seg.skip_mask,
        globalmv_mask: seg.globalmv_mask,
    };
    let r = read_segments(
        s,
        segments(ext),
        Read {
            value: masks,
            next: p,
        },
        &mut delta_q,
    );
    let masks = r.value;
    Read {
        value: SegmentationDataSet {
            delta_q,
            delta_q_mask: masks.delta_q_mask,
            skip_mask: masks.skip_mask,
            globalmv_mask: masks.globalmv_mask,
        },
        next: r.next,
    }
}

fn segments(ext: bool) -> usize
    ensures { (result ≡ pick ext 16 8) × (result ≤ 16) }
{
    if ext { 16 } else { 8 }
}
