// What the groups of a sequence header share: two enums, and fields of a few bits.
#![tactic(auto)]

ghost use Rattle.std.specs.Prelude.{◌≡◌, ◌^◌, ◌<◌, ◌≤◌};
ghost use Rattle.getbits.specs.Chain.{pick};
ghost use Rattle.seq_fields.specs.Fields.{get_small, small_if, bit_of, is_mono, layout_of};
ghost use Rattle.seq_fields.specs.declared.AdaptiveBoolean.TheVariants.{Off, On, Adaptive};

use getbits::{Place, Read, read_bits};

#[derive(Clone, Copy, PartialEq, Eq)]
pub enum AdaptiveBoolean {
    Off,
    On,
    Adaptive,
}

#[derive(Clone, Copy, PartialEq, Eq)]
pub enum PixelLayout {
    I400,
    I420,
    I422,
    I444,
}

// get_bits(n) as u8. The place goes on in its parts: right behind the stores of these, a copy of the whole would wait for them.
pub fn get_small(s: &[u8], p: Place, n: u32) -> Read<u8>
    ensures is { result ≡ get_small s.now p n }
    ensures below { result.value < 2 ^ n }
{
    let r = read_bits(s, p, n);
    let next = r.next;
    Read {
        value: (r.value % 256) as u8,
        next: Place {
            byte: next.byte,
            used: next.used,
            error: next.error,
        },
    }
}

// The same under a condition: else 0, and the place as it was.
pub fn small_if(s: &[u8], p: Place, n: u32, cond: bool) -> Read<u8>
    ensures is { result ≡ small_if cond s.now p n }
    ensures below { result.value < 2 ^ n }
{
    if cond {
        get_small(s, p, n)
    } else {
        Read { value: 0, next: p }
    }
}

// Adaptive if `adaptive`; else On or Off.
pub fn adaptive_or(adaptive: bool, on: bool) -> AdaptiveBoolean
    ensures { result ≡ pick adaptive Adaptive (pick on On Off) }
{
    if adaptive {
        return AdaptiveBoolean::Adaptive;
    }
    if on {
        AdaptiveBoolean::On
    } else {
        AdaptiveBoolean::Off
    }
}

// A flag as a number. That it is at most 1, which From doesn't tell, spares its callers a proof.
pub fn bit(b: bool) -> u8
    ensures { (result ≡ bit_of b) × (result ≤ 1) }
{
    u8::from(b)
}

// Is the layout without chroma?
pub fn is_mono(layout: PixelLayout) -> bool
    ensures { result ≡ is_mono layout }
{
    layout == PixelLayout::I400
}

// The layout with a number.
pub fn layout_of(n: u8) -> PixelLayout
    ensures { result ≡ layout_of n }
{
    match n {
        0 => PixelLayout::I400,
        1 => PixelLayout::I420,
        2 => PixelLayout::I422,
        _ => PixelLayout::I444,
    }
}
