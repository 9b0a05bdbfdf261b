// The tile layout of a frame: the sequence's, or one of its own.
#![tactic(auto)]

ghost use Rattle.std.specs.Prelude.{◌≡◌, true, false, ◌&&◌};
ghost use Rattle.answers.specs.Numbers.{is_refusal};
ghost use Rattle.flat.specs.Layout.{buffers, has_room, put_layout, layout_in};
ghost use Rattle.getbits.specs.Bits.{settled};
ghost use Rattle.getbits.specs.Chain.{pick};
ghost use Rattle.superblocks.specs.Counts.{multiplier_of};
ghost use Rattle.tile_layout.specs.Limits.{unsigned, in_domain};
ghost use Rattle.tile_layout.specs.Layout.{parse_tile_info};
ghost use Rattle.frame_layout.specs.Frame.{is_inter_or_switch, frame_code, with_layout, parse_tile_info_frmhdr, FrameLayout};
ghost use Rattle.frame_hdr.specs.Into.{frame_in, seq_in, parse_tile_info_frmhdr_into, frame_layout_left};
ghost use Rattle.frame_layout.specs.Sequence.{seq_layout};

use answers::{Answer, is_refusal};
use flat::{has_room, put_tile_info, tile_info_of};
use frame_layout::{FrameHeader, FrameRead, FrameType, SeqLayout};
use getbits::{Place, read_bits};
use lent::is_set;
use seq_fields::AdaptiveBoolean;
use seq_record::SequenceHeader;
use superblocks::multiplier_of;
use tile_info::parse_tile_info_into;
use tile_layout::{TileArgs, TileInfo, not_below_0};

mod domain;
mod reuse;

use domain::{is_extent, is_usable};
use reuse::{read_reuse, reuse_allowed, reused_layout};

// The answer of a reading into lent buffers, the frame's code and the place after the reading. A refusal has the code that was given.
#[derive(Clone, Copy)]
pub struct FrameOutcome {
    pub answer: Answer,
    pub sb128: u8,
    pub next: Place,
}

fn is_inter_or_switch(frame_type: FrameType) -> bool
    ensures { result ≡ is_inter_or_switch frame_type }
{
    matches!(frame_type, FrameType::Inter | FrameType::Switch)
}

// The frame's superblock code.
fn frame_code(frame_type: FrameType, seq_sb128: u8) -> u8
    ensures { result ≡ frame_code frame_type seq_sb128 }
{
    if is_inter_or_switch(frame_type) {
        return seq_sb128;
    }
    u8::from(seq_sb128 != 0)
}

fn frame_args(
    frame_type: FrameType,
    width: i32,
    height: i32,
    seq_sb128: u8,
    level: u8,
    tier: u8,
) -> TileArgs
    ensures { result ≡ record {
      multiplier = multiplier_of (frame_code frame_type seq_sb128) seq_sb128;
      frame_code = frame_code frame_type seq_sb128;
      seq_code = seq_sb128;
      width = unsigned width;
      height = unsigned height;
      level = level;
      tier = tier;
    } }
{
    let sb128 = frame_code(frame_type, seq_sb128);
    TileArgs {
        multiplier: multiplier_of(sb128, seq_sb128),
        frame_code: sb128,
        seq_code: seq_sb128,
        width: not_below_0(width),
        height: not_below_0(height),
        level,
        tier,
    }
}

// A layout of the frame's own. The reader's error is not looked at, and a refusal hands back the code given.
fn fresh_layout(
    s: &[u8],
    p: Place,
    a: TileArgs,
    width: i32,
    height: i32,
    sb128: u8,
    info: &mut [u8],
    cols: &mut [u16],
    rows: &mut [u16],
) -> FrameOutcome
    requires in_the_domain { in_domain a ≡ true }
    requires width_value { (a.width ≡ unsigned width) × (a.height ≡ unsigned height) }
    requires room { has_room (buffers info.old cols.old rows.old) ≡ true }
    ensures { let before = buffers info.old cols.old rows.old in
        let after = buffers info.new cols.new rows.new in
        let z = parse_tile_info s.now p (layout_in before) a in
        let refused = is_refusal z.answer in
        (result ≡ record { answer = z.answer; sb128 = pick refused sb128 a.frame_code; next = z.next })
        × (after ≡ pick refused before (put_layout z.info before)) }
{
    let r = parse_tile_info_into(
        s,
        p,
        &mut *info,
        &mut *cols,
        &mut *rows,
        a.multiplier as i32,
        a.frame_code,
        a.seq_code,
        width,
        height,
        a.level,
        a.tier,
    );
    if is_refusal(r.answer) {
        return FrameOutcome {
            answer: r.answer,
            sb128,
            next: r.next,
        };
    }
    FrameOutcome {
        answer: r.answer,
        sb128: a.frame_code,
        next: r.next,
    }
}

// A refusal that uses no bit, with the code given.
fn unread(s: &[u8], p: Place, answer: Answer, sb128: u8) -> FrameOutcome
    ensures { result ≡ record { answer = answer; sb128 = sb128; next = settled s.now p } }
{
    let here = read_bits(s, p, 0);
    FrameOutcome {
        answer,
        sb128,
        next: here.next,
    }
}

// parse_tile_info_frmhdr into the lent buffers of the frame's layout, over those of the sequence's.
pub fn frame_layout_into(
    s: &[u8],
    p: Place,
    frame_type: FrameType,
    width: i32,
    height: i32,
    sb128: u8,
    info: &mut [u8],
    cols: &mut [u16],
    rows: &mut [u16],
    seq_sb128: u8,
    max_width: i32,
    max_height: i32,
    level: u8,
    tier: u8,
    present: AdaptiveBoolean,
    seq_info: &[u8],
    seq_cols: &[u16],
    seq_rows: &[u16],
) -> FrameOutcome
    ensures outcome { let before = buffers info.old cols.old rows.old in
        let after = buffers info.new cols.new rows.new in
        let seq-before = buffers seq_info.now seq_cols.now seq_rows.now in
        let hdr = frame_in frame_type width height sb128 before in
        let seq = seq_in seq_sb128 max_width max_height level tier present seq-before in
        (result, after) ≡ parse_tile_info_frmhdr_into s.now p before seq-before hdr seq }
    ensures as_by_value { let before = buffers info.old cols.old rows.old in
        let after = buffers info.new cols.new rows.new in
        let seq-before = buffers seq_info.now seq_cols.now seq_rows.now in
        let hdr = frame_in frame_type width height sb128 before in
        let seq = seq_in seq_sb128 max_width max_height level tier present seq-before in
        (has_room before && has_room seq-before ≡ true → frame_layout_left hdr result after ≡ parse_tile_info_frmhdr s.now p hdr seq) }
    ensures frame_layout { let before = buffers info.old cols.old rows.old in
        let after = buffers info.new cols.new rows.new in
        let seq-before = buffers seq_info.now seq_cols.now seq_rows.now in
        let hdr = frame_in frame_type width height sb128 before in
        let seq = seq_in seq_sb128 max_width max_height level tier present seq-before in
        (has_room before && has_room seq-before ≡ true → FrameLayout s.now p hdr seq (frame_layout_left hdr result after)) }
{
    if !has_room(&*info, &*cols, &*rows) {
        return FrameOutcome {
            answer: Answer::ShortBuffer,
            sb128,
            next: p,
        };
    }
    if !has_room(seq_info, seq_cols, seq_rows) {
        return FrameOutcome {
            answer: Answer::ShortBuffer,
            sb128,
            next: p,
        };
    }
    let sized = is_extent(width) & is_extent(height);
    let usable = is_usable(
        seq_sb128, max_width, max_height, level, tier, present, seq_info, seq_cols, seq_rows,
    );
    if !(sized & usable) {
        return unread(s, p, Answer::WrongArguments, sb128);
    }
    let a = frame_args(frame_type, width, height, seq_sb128, level, tier);
    let allowed = reuse_allowed(
        a,
        max_width,
        max_height,
        present,
        is_set(seq_info[0]),
        seq_info[3],
        seq_info[7],
    );
    let reuse = read_reuse(s, p, allowed, present);
    if reuse.value {
        reused_layout(
            a, seq_info, seq_cols, seq_rows, &mut *info, &mut *cols, &mut *rows,
        );
        return FrameOutcome {
            answer: Answer::Accepted,
            sb128: a.frame_code,
            next: reuse.next,
        };
    }
    fresh_layout(
        s, reuse.next, a, width, height, sb128, &mut *info, &mut *cols, &mut *rows,
    )
}

// The header with its code and a layout.
fn with_layout(hdr: FrameHeader, sb128: u8, tiling: TileInfo) -> FrameHeader
    ensures { result ≡ with_layout hdr sb128 tiling }
{
    FrameHeader {
        frame_type: hdr.frame_type,
        width: hdr.width,
        height: hdr.height,
        sb128,
        tiling,
    }
}

// parse_tile_info_frmhdr over the few fields of the sequence header that it needs.
pub fn frame_layout(s: &[u8], p: Place, hdr: FrameHeader, seq: SeqLayout) -> FrameRead
    ensures value { result ≡ parse_tile_info_frmhdr s.now p hdr seq }
    ensures frame_layout { FrameLayout s.now p hdr seq result }
{
    let mut info = [0u8; 9];
    let mut cols = [0u16; 65];
    let mut rows = [0u16; 65];
    put_tile_info(hdr.tiling, &mut info, &mut cols, &mut rows);
    let mut seq_info = [0u8; 9];
    let mut seq_cols = [0u16; 65];
    let mut seq_rows = [0u16; 65];
    put_tile_info(seq.t, &mut seq_info, &mut seq_cols, &mut seq_rows);
    let r = frame_layout_into(
        s,
        p,
        hdr.frame_type,
        hdr.width,
        hdr.height,
        hdr.sb128,
        &mut info,
        &mut cols,
        &mut rows,
        seq.sb128,
        seq.max_width,
        seq.max_height,
        seq.level,
        seq.tier,
        seq.present,
        &seq_info,
        &seq_cols,
        &seq_rows,
    );
    let tiling = tile_info_of(&info, &cols, &rows);
    FrameRead {
        answer: r.answer,
        hdr: with_layout(hdr, r.sb128, tiling),
        next: r.next,
    }
}

// What a frame's layout needs of the sequence header.
fn seq_layout(seqhdr: SequenceHeader) -> SeqLayout
    ensures { result ≡ seq_layout seqhdr }
{
    let picture = seqhdr.picture;
    let size = picture.size;
    let tiling = seqhdr.tiling;
    SeqLayout {
        sb128: seqhdr.blocks.partition.sb128,
        max_width: size.max_width,
        max_height: size.max_height,
        level: seqhdr.level.level,
        tier: seqhdr.level.tier,
        present: tiling.present,
        t: tiling.t,
    }
}

pub fn parse_tile_info_frmhdr(
    s: &[u8],
    p: Place,
    hdr: FrameHeader,
    seqhdr: SequenceHeader,
) -> FrameRead
    ensures value { result ≡ parse_tile_info_frmhdr s.now p hdr (seq_layout seqhdr) }
    ensures frame_layout { FrameLayout s.now p hdr (seq_layout seqhdr) result }
{
    frame_layout(s, p, hdr, seq_layout(seqhdr))
}
