// The inter tools of a sequence header.
#![tactic(auto)]

ghost use Rattle.std.specs.Prelude.{◌≡◌, ◌≤◌, ◌<◌};
ghost use Rattle.seq_inter.specs.Refs.{motion_modes, order_hint_bits, read_motion, drl_reorder, ref_frames, ref_frames_log2, read_ref_frames};
ghost use Rattle.seq_inter.specs.Inter.{count_if, read_drl, read_tip, read_mv, read_screen, read_inter};

use codes::uniform_if;
use getbits::{Place, Read, flag_if, get_flag};
use seq_fields::{AdaptiveBoolean, adaptive_or, bit, small_if};

#[derive(Clone, Copy)]
pub struct Motion {
    pub motion_modes: u8,
    pub frame_motion_modes_present: bool,
    pub six_param_warp_delta: bool,
    pub masked_compound: bool,
    pub ref_frame_mvs: bool,
    pub reduced_ref_frame_mvs_mode: u8,
    pub order_hint_n_bits: u8,
}

#[derive(Clone, Copy)]
pub struct RefFrames {
    pub refmv_bank: bool,
    pub drl_reorder: u8,
    pub explicit_ref_frame_map: bool,
    pub ref_frames: u8,
    pub ref_frames_log2: u8,
}

#[derive(Clone, Copy)]
pub struct Drl {
    pub number_of_bits_for_lt_frame_id: u8,
    pub def_max_drl_bits: u8,
    pub allow_frame_max_drl_bits: bool,
    pub def_max_bvp_drl_bits: u8,
    pub allow_max_bvp_drl_bits: bool,
    pub num_same_ref_comp: u8,
}

#[derive(Clone, Copy)]
pub struct Tip {
    pub tip: bool,
    pub tip_hole_fill: bool,
    pub mv_traj: bool,
    pub bawp: bool,
    pub cwp: bool,
    pub imp_msk_bld: bool,
    pub db_sub_pu: bool,
    pub tip_explicit_qp: bool,
}

#[derive(Clone, Copy)]
pub struct Mv {
    pub opfl_refine: bool,
    pub refine_mv: bool,
    pub tip_refine_mv: bool,
    pub bru: bool,
    pub adaptive_mvd: bool,
    pub mvd_sign_derive: bool,
    pub flex_mvres: bool,
    pub global_motion: bool,
    pub short_refresh_frame_flags: bool,
}

#[derive(Clone, Copy)]
pub struct Screen {
    pub screen_content_tools: AdaptiveBoolean,
    pub force_integer_mv: AdaptiveBoolean,
}

#[derive(Clone, Copy)]
pub struct Inter {
    pub drl: Drl,
    pub tip: Tip,
    pub mv: Mv,
    pub screen: Screen,
}

fn motion_modes(m1: bool, m2: bool, m3: bool, m4: bool) -> u8
    ensures { result ≡ motion_modes m1 m2 m3 m4 }
{
    1 + 2 * bit(m1) + 4 * bit(m2) + 8 * bit(m3) + 16 * bit(m4)
}

fn order_hint_bits(reduced: bool, n: u8) -> u8
    requires { n < 16 }
    ensures { result ≡ order_hint_bits reduced n }
{
    if reduced { 0 } else { n + 1 }
}

pub fn read_motion(s: &[u8], p: Place, reduced: bool) -> Read<Motion>
    ensures { result ≡ read_motion reduced s.now p }
{
    let m1 = flag_if(s, p, !reduced);
    let m2 = flag_if(s, m1.next, !reduced);
    let m3 = flag_if(s, m2.next, !reduced);
    let m4 = flag_if(s, m3.next, !reduced);
    let frame_modes = flag_if(s, m4.next, m1.value | m2.value | m3.value | m4.value);
    let six_param = flag_if(s, frame_modes.next, m3.value);
    let masked = flag_if(s, six_param.next, !reduced);
    let mvs = flag_if(s, masked.next, !reduced);
    let mvs_mode = small_if(s, mvs.next, 1, mvs.value);
    let hint_bits = small_if(s, mvs_mode.next, 4, !reduced);
    Read {
        value: Motion {
            motion_modes: motion_modes(m1.value, m2.value, m3.value, m4.value),
            frame_motion_modes_present: frame_modes.value,
            six_param_warp_delta: six_param.value,
            masked_compound: masked.value,
            ref_frame_mvs: mvs.value,
            reduced_ref_frame_mvs_mode: mvs_mode.value,
            order_hint_n_bits: order_hint_bits(reduced, hint_bits.value),
        },
        next: hint_bits.next,
    }
}

fn drl_reorder(off: bool, constrained: bool) -> u8
    ensures { result ≡ drl_reorder off constrained }
{
    if off {
        return 0;
    }
    if constrained { 1 } else { 2 }
}

fn ref_frames(reduced: bool, sent: bool, n: u8) -> u8
    requires { n < 16 }
    ensures { (result ≡ ref_frames reduced sent n) × (1 ≤ result) × (result ≤ 16) }
{
    if reduced {
        return 2;
    }
    if sent { n + 1 } else { 8 }
}

fn ref_frames_log2(reduced: bool, n: u8) -> u8
    requires { (1 ≤ n) × (n ≤ 16) }
    ensures { result ≡ ref_frames_log2 reduced n }
{
    if reduced {
        return 0;
    }
    (32 - u32::leading_zeros((n - 1) as u32)) as u8
}

pub fn read_ref_frames(s: &[u8], p: Place, reduced: bool) -> Read<RefFrames>
    ensures { result ≡ read_ref_frames reduced s.now p }
{
    let bank = get_flag(s, p);
    let off = get_flag(s, bank.next);
    let constrained = flag_if(s, off.next, !off.value);
    let explicit = flag_if(s, constrained.next, !reduced);
    let sent = flag_if(s, explicit.next, !reduced);
    let count = small_if(s, sent.next, 4, sent.value);
    let frames = ref_frames(reduced, sent.value, count.value);
    Read {
        value: RefFrames {
            refmv_bank: bank.value,
            drl_reorder: drl_reorder(off.value, constrained.value),
            explicit_ref_frame_map: explicit.value,
            ref_frames: frames,
            ref_frames_log2: ref_frames_log2(reduced, frames),
        },
        next: count.next,
    }
}

// A number of bits from 1 to max; 1 where it is not sent.
fn count_if(s: &[u8], p: Place, max: u32, sent: bool) -> Read<u8>
    requires { (1 ≤ max) × (max < 256) }
    ensures { result ≡ count_if sent s.now p max }
{
    let n = uniform_if(s, p, max, sent);
    Read {
        value: (n.value + 1) as u8,
        next: n.next,
    }
}

fn read_drl(s: &[u8], p: Place, reduced: bool) -> Read<Drl>
    ensures { result ≡ read_drl reduced s.now p }
{
    let lt_bits = small_if(s, p, 3, !reduced);
    let drl_bits = count_if(s, lt_bits.next, 5, !reduced);
    let frame_drl = flag_if(s, drl_bits.next, !reduced);
    let bvp_bits = count_if(s, frame_drl.next, 3, true);
    let max_bvp = get_flag(s, bvp_bits.next);
    let same_ref = small_if(s, max_bvp.next, 2, !reduced);
    Read {
        value: Drl {
            number_of_bits_for_lt_frame_id: lt_bits.value,
            def_max_drl_bits: drl_bits.value,
            allow_frame_max_drl_bits: frame_drl.value,
            def_max_bvp_drl_bits: bvp_bits.value,
            allow_max_bvp_drl_bits: max_bvp.value,
            num_same_ref_comp: same_ref.value,
        },
        next: same_ref.next,
    }
}

// With tip set one further bit is read and ignored.
fn read_tip(s: &[u8], p: Place, reduced: bool) -> Read<Tip>
    ensures { result ≡ read_tip reduced s.now p }
{
    let tip = flag_if(s, p, !reduced);
    let ignored = flag_if(s, tip.next, tip.value);
    let hole_fill = flag_if(s, ignored.next, tip.value);
    let mv_traj = flag_if(s, hole_fill.next, !reduced);
    let bawp = get_flag(s, mv_traj.next);
    let cwp = flag_if(s, bawp.next, !reduced);
    let imp_msk_bld = flag_if(s, cwp.next, !reduced);
    let db_sub_pu = flag_if(s, imp_msk_bld.next, !reduced);
    let explicit_qp = flag_if(s, db_sub_pu.next, tip.value & db_sub_pu.value);
    Read {
        value: Tip {
            tip: tip.value,
            tip_hole_fill: hole_fill.value,
            mv_traj: mv_traj.value,
            bawp: bawp.value,
            cwp: cwp.value,
            imp_msk_bld: imp_msk_bld.value,
            db_sub_pu: db_sub_pu.value,
            tip_explicit_qp: explicit_qp.value,
        },
        next: explicit_qp.next,
    }
}

fn read_mv(s: &[u8], p: Place, reduced: bool, tip: bool) -> Read<Mv>
    ensures { result ≡ read_mv reduced tip s.now p }
{
    let opfl = small_if(s, p, 2, !reduced);
    let refine = flag_if(s, opfl.next, !reduced);
    let tip_refine = flag_if(s, refine.next, tip & ((0 < opfl.value) | refine.value));
    let bru = flag_if(s, tip_refine.next, !reduced);
    let adaptive = flag_if(s, bru.next, !reduced);
    let sign_derive = flag_if(s, adaptive.next, !reduced);
    let flex_res = flag_if(s, sign_derive.next, !reduced);
    let global = flag_if(s, flex_res.next, !reduced);
    let short_refresh = flag_if(s, global.next, !reduced);
    Read {
        value: Mv {
            opfl_refine: 0 < opfl.value,
            refine_mv: refine.value,
            tip_refine_mv: tip_refine.value,
            bru: bru.value,
            adaptive_mvd: adaptive.value,
            mvd_sign_derive: sign_derive.value,
            flex_mvres: flex_res.value,
            global_motion: global.value,
            short_refresh_frame_flags: short_refresh.value,
        },
        next: short_refresh.next,
    }
}

fn read_screen(s: &[u8], p: Place, reduced: bool) -> Read<Screen>
    ensures { result ≡ read_screen reduced s.now p }
{
    let select = flag_if(s, p, !reduced);
    let on = flag_if(s, select.next, !reduced & !select.value);
    let sent = select.value | on.value;
    let mv_select = flag_if(s, on.next, sent);
    let mv_on = flag_if(s, mv_select.next, sent & !mv_select.value);
    Read {
        value: Screen {
            screen_content_tools: adaptive_or(reduced | select.value, on.value),
            force_integer_mv: adaptive_or(!sent | mv_select.value, mv_on.value),
        },
        next: mv_on.next,
    }
}

pub fn read_inter(s: &[u8], p: Place, reduced: bool) -> Read<Inter>
    ensures { result ≡ read_inter reduced s.now p }
{
    let drl = read_drl(s, p, reduced);
    let tip = read_tip(s, drl.next, reduced);
    let mv = read_mv(s, tip.next, reduced, tip.value.tip);
    let screen = read_screen(s, mv.next, reduced);
    Read {
        value: Inter {
            drl: drl.value,
            tip: tip.value,
            mv: mv.value,
            screen: screen.value,
        },
        next: screen.next,
    }
}
