// The residual tools of a sequence header, and its loop filters.
#![tactic(auto)]

ghost use Rattle.std.specs.Prelude.{◌≡◌};
ghost use Rattle.getbits.specs.Chain.{pick};
ghost use Rattle.seq_residual.specs.Residual.{read_transform, read_entropy, signed_if, wrapped_if, read_quant, read_residual};
ghost use Rattle.seq_residual.specs.Filters.{wiener_mask, read_restoration, on_skip_tx, read_filters};

use getbits::{Place, Read, flag_if, get_flag};
use seq_fields::{AdaptiveBoolean, adaptive_or, bit, get_small, small_if};

#[derive(Clone, Copy)]
pub struct Transform {
    pub fsc: bool,
    pub idtx_intra: bool,
    pub ist: [bool; 2],
    pub chroma_dctonly: bool,
    pub inter_ddt: bool,
    pub reduced_tx_part_set: bool,
    pub cctx: bool,
}

#[derive(Clone, Copy)]
pub struct Entropy {
    pub tcq: AdaptiveBoolean,
    pub parity_hiding: bool,
    pub avg_cdf: bool,
    pub avg_cdf_type: u8,
}

#[derive(Clone, Copy)]
pub struct Quant {
    pub separate_uv_delta_q: bool,
    pub equal_ac_dc_q: bool,
    pub base_ydc_dq: i8,
    pub ydc_dq_enabled: bool,
    pub base_uvdc_dq: u8,
    pub uvdc_dq_enabled: bool,
    pub base_uvac_dq: u8,
    pub uvac_dq_enabled: bool,
}

#[derive(Clone, Copy)]
pub struct Residual {
    pub transform: Transform,
    pub entropy: Entropy,
    pub quant: Quant,
}

#[derive(Clone, Copy)]
struct RestorationRead {
    restoration: bool,
    mask: u8,
    uv_mask: u8,
    next: Place,
}

#[derive(Clone, Copy)]
pub struct Filters {
    pub disable_loopfilters_across_tiles: bool,
    pub cdef: bool,
    pub gdf: bool,
    pub gdf_unit_matches_sbsz: bool,
    pub restoration: bool,
    pub rst_disable_mask: [u8; 2],
    pub ccso: bool,
    pub ccso_unit_matches_sbsz: bool,
    pub cdef_on_skiptx: AdaptiveBoolean,
    pub df_par_bits: u8,
}

fn read_transform(s: &[u8], p: Place, mono: bool, reduced: bool) -> Read<Transform>
    ensures { result ≡ read_transform mono reduced s.now p }
{
    let fsc = get_flag(s, p);
    let idtx = flag_if(s, fsc.next, !fsc.value);
    let ist0 = get_flag(s, idtx.next);
    let ist1 = get_flag(s, ist0.next);
    let dct_only = flag_if(s, ist1.next, !mono);
    let inter_ddt = flag_if(s, dct_only.next, !reduced);
    let part_set = get_flag(s, inter_ddt.next);
    let cctx = flag_if(s, part_set.next, !mono);
    let ist = [ist0.value, ist1.value];
    Read {
        value: Transform {
            fsc: fsc.value,
            idtx_intra: fsc.value | idtx.value,
            ist,
            chroma_dctonly: dct_only.value,
            inter_ddt: inter_ddt.value,
            reduced_tx_part_set: part_set.value,
            cctx: cctx.value,
        },
        next: cctx.next,
    }
}

fn read_entropy(s: &[u8], p: Place, reduced: bool) -> Read<Entropy>
    ensures { result ≡ read_entropy reduced s.now p }
{
    let tcq = get_flag(s, p);
    let adaptive = flag_if(s, tcq.next, tcq.value & !reduced);
    let parity = flag_if(s, adaptive.next, !tcq.value | adaptive.value);
    let avg = flag_if(s, parity.next, !reduced);
    let avg_type = flag_if(s, avg.next, avg.value);
    let tcq = adaptive_or(adaptive.value, tcq.value);
    let avg_cdf_type = bit(reduced | avg_type.value);
    Read {
        value: Entropy {
            tcq,
            parity_hiding: parity.value,
            avg_cdf: reduced | avg.value,
            avg_cdf_type,
        },
        next: avg_type.next,
    }
}

// Five bits less 23, signed.
fn signed_if(s: &[u8], p: Place, sent: bool) -> Read<i8>
    ensures { result ≡ signed_if sent s.now p }
{
    let n = small_if(s, p, 5, sent);
    let next = n.next;
    if sent {
        return Read {
            value: (n.value as i8) - 23,
            next,
        };
    }
    Read { value: 0i8, next }
}

// Five bits less 23, in a byte that wraps at 256.
fn wrapped_if(s: &[u8], p: Place, sent: bool) -> Read<u8>
    ensures { result ≡ wrapped_if sent s.now p }
{
    let n = small_if(s, p, 5, sent);
    let next = n.next;
    if sent {
        return Read {
            value: std::num::wrapping_sub_u8(n.value, 23),
            next,
        };
    }
    Read { value: 0, next }
}

fn either(first: bool, a: u8, b: u8) -> u8
    ensures { result ≡ pick first a b }
{
    if first { a } else { b }
}

fn read_quant(s: &[u8], p: Place, mono: bool) -> Read<Quant>
    ensures { result ≡ read_quant mono s.now p }
{
    let separate = flag_if(s, p, !mono);
    let equal = get_flag(s, separate.next);
    let ydc = signed_if(s, equal.next, !equal.value);
    let ydc_on = flag_if(s, ydc.next, !equal.value);
    let uvdc = wrapped_if(s, ydc_on.next, !mono & !equal.value);
    let uvdc_on = flag_if(s, uvdc.next, !mono & !equal.value);
    let uvac = wrapped_if(s, uvdc_on.next, !mono);
    let uvac_on = flag_if(s, uvac.next, !mono);
    let base_uvdc_dq = either(equal.value, uvac.value, uvdc.value);
    Read {
        value: Quant {
            separate_uv_delta_q: separate.value,
            equal_ac_dc_q: equal.value,
            base_ydc_dq: ydc.value,
            ydc_dq_enabled: ydc_on.value,
            base_uvdc_dq,
            uvdc_dq_enabled: uvdc_on.value,
            base_uvac_dq: uvac.value,
            uvac_dq_enabled: uvac_on.value,
        },
        next: uvac_on.next,
    }
}

pub fn read_residual(s: &[u8], p: Place, mono: bool, reduced: bool) -> Read<Residual>
    ensures { result ≡ read_residual mono reduced s.now p }
{
    let transform = read_transform(s, p, mono, reduced);
    let entropy = read_entropy(s, transform.next, reduced);
    let quant = read_quant(s, entropy.next, mono);
    let next = quant.next;
    Read {
        value: Residual {
            transform: transform.value,
            entropy: entropy.value,
            quant: quant.value,
        },
        next,
    }
}

fn wiener_mask(no_ns: bool, no_pc: bool) -> u8
    ensures { result ≡ wiener_mask no_ns no_pc }
{
    2 * bit(no_ns) + bit(no_pc)
}

fn read_restoration(s: &[u8], p: Place) -> RestorationRead
    ensures { result ≡ read_restoration s.now p }
{
    let restoration = get_flag(s, p);
    let no_pc = flag_if(s, restoration.next, restoration.value);
    let no_ns = flag_if(s, no_pc.next, restoration.value);
    let separate = flag_if(s, no_ns.next, restoration.value);
    let no_ns_uv = flag_if(s, separate.next, separate.value);
    let mask = wiener_mask(no_ns.value, no_pc.value);
    let own = wiener_mask(no_ns_uv.value, restoration.value);
    let shared = wiener_mask(no_ns.value, restoration.value);
    let uv_mask = either(separate.value, own, shared);
    RestorationRead {
        restoration: restoration.value,
        mask,
        uv_mask,
        next: no_ns_uv.next,
    }
}

fn on_skip_tx(on: bool, off: bool) -> AdaptiveBoolean
    ensures { result ≡ on_skip_tx on off }
{
    if on {
        return AdaptiveBoolean::On;
    }
    if off {
        AdaptiveBoolean::Off
    } else {
        AdaptiveBoolean::Adaptive
    }
}

pub fn read_filters(s: &[u8], p: Place, reduced: bool, sb128: u8) -> Read<Filters>
    ensures { result ≡ read_filters reduced sb128 s.now p }
{
    let across = get_flag(s, p);
    let cdef = get_flag(s, across.next);
    let gdf = get_flag(s, cdef.next);
    let gdf_unit = flag_if(s, gdf.next, gdf.value & (sb128 == 0));
    let rst = read_restoration(s, gdf_unit.next);
    let ccso = get_flag(s, rst.next);
    let ccso_unit = flag_if(s, ccso.next, ccso.value);
    let on = flag_if(s, ccso_unit.next, !reduced);
    let off = flag_if(s, on.next, !reduced & !on.value);
    let par_bits = get_small(s, off.next, 2);
    let rst_disable_mask = [rst.mask, rst.uv_mask];
    let cdef_on_skiptx = on_skip_tx(on.value, off.value);
    Read {
        value: Filters {
            disable_loopfilters_across_tiles: across.value,
            cdef: cdef.value,
            gdf: gdf.value,
            gdf_unit_matches_sbsz: gdf_unit.value,
            restoration: rst.restoration,
            rst_disable_mask,
            ccso: ccso.value,
            ccso_unit_matches_sbsz: ccso_unit.value,
            cdef_on_skiptx,
            df_par_bits: 2 + par_bits.value,
        },
        next: par_bits.next,
    }
}
