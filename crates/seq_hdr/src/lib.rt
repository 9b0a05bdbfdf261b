// The sequence header.
#![tactic(auto)]

ghost use Rattle.std.specs.Prelude.{◌≡◌, true, ltb};
ghost use Rattle.answers.specs.Numbers.{number_of, is_refusal};
ghost use Rattle.getbits.specs.Chain.{pick};
ghost use Rattle.flat.specs.Layout.{buffers, has_room, put_layout, layout_in};
ghost use Rattle.tile_layout.specs.Limits.{no_tile_info};
ghost use Rattle.seq_hdr.specs.Into.{parse_seq_hdr_into, HeadPut, TilingInto, ask_end, ended_header, read_rest, whole_rest};
ghost use Rattle.seq_hdr.specs.Tiling.{read_tiling};
ghost use Rattle.seq_hdr.specs.HeaderLayout.{HeaderLayout};
ghost use Rattle.seq_hdr.specs.HeaderTiling.{HeaderTiling};
ghost use Rattle.seq_hdr.specs.Header.{read_start, unknown_profile, refused_header};
ghost use Rattle.seq_hdr.specs.Header.{read_groups, read_head, with_tiling, parse_seq_hdr};

use answers::{Answer, is_refusal};
use codes::get_vlc;
use flat::{clear_starts, has_room, put_layout_bytes, tile_info_of};
use flat_hdr::{
    put_blocks, put_filters, put_head, put_inter, put_last, put_motion, put_picture, put_residual,
    put_zeros,
};
use getbits::{Place, Read, get_flag};
use seq_blocks::read_blocks;
use seq_fields::{AdaptiveBoolean, adaptive_or, get_small, is_mono};
use seq_inter::{read_inter, read_motion, read_ref_frames};
use seq_picture::{Format, FrameSize, Level, read_format, read_level, read_picture};
use seq_record::{SeqTiling, SequenceHeader, Start, no_seq_hdr};
use seq_residual::{read_filters, read_residual};
use tile_info::parse_tile_info_into;
use tile_layout::no_tile_info;

// The answer, the record, and the place after it.
#[derive(Clone, Copy)]
pub struct SeqRead {
    pub answer: Answer,
    pub hdr: SequenceHeader,
    pub next: Place,
}

// The answer of a reading into lent buffers, and the place after it.
#[derive(Clone, Copy)]
pub struct HeaderOutcome {
    pub answer: Answer,
    pub next: Place,
}

// The tiling's answer, the layout's presence, and the place after it.
#[derive(Clone, Copy)]
struct TilingOutcome {
    answer: Answer,
    present: AdaptiveBoolean,
    next: Place,
}

// What stands behind the record before the tiling, beside the layout: the answer, the layout's presence, the film grain flag, and the place after it.
#[derive(Clone, Copy)]
struct RestRead {
    answer: Answer,
    present: AdaptiveBoolean,
    film_grain_present: bool,
    next: Place,
}

fn read_start(s: &[u8], p: Place) -> Read<Start>
    ensures { result ≡ read_start s.now p }
{
    let id = get_vlc(s, p);
    let profile = get_small(s, id.next, 5);
    Read {
        value: Start {
            id: (id.value % 256) as u8,
            profile: profile.value,
        },
        next: profile.next,
    }
}

fn unknown_profile(n: u8) -> bool
    ensures { result ≡ unknown_profile n }
{
    !((n <= 8) | (n == 31))
}

fn above(n: u32, most: u32) -> bool
    ensures { result ≡ ltb most n }
{
    most < n
}

// The zero layout.
fn clear_layout(info: &mut [u8], cols: &mut [u16], rows: &mut [u16])
    requires { has_room (buffers info.old cols.old rows.old) ≡ true }
    ensures { let before = buffers info.old cols.old rows.old in
        let after = buffers info.new cols.new rows.new in
        after ≡ put_layout no_tile_info before }
{
    put_layout_bytes(&mut *info, false, 0, 0, 0, 0, 0, 0, 0, 0);
    clear_starts(&mut *cols);
    clear_starts(&mut *rows);
}

// The tiling; the layout of the largest frame is read over the zero layout.
fn read_tiling(
    s: &[u8],
    p: Place,
    sb128: u8,
    size: FrameSize,
    level: Level,
    info: &mut [u8],
    cols: &mut [u16],
    rows: &mut [u16],
) -> TilingOutcome
    requires room { has_room (buffers info.old cols.old rows.old) ≡ true }
    requires zero_layout { put_layout no_tile_info (buffers info.old cols.old rows.old) ≡ buffers info.old cols.old rows.old }
    ensures { let before = buffers info.old cols.old rows.old in
        let after = buffers info.new cols.new rows.new in
        TilingInto (read_tiling sb128 size level s.now p) before result after }
{
    let present = get_flag(s, p);
    let next = present.next;
    if !present.value {
        return TilingOutcome {
            answer: Answer::Accepted,
            present: AdaptiveBoolean::Off,
            next,
        };
    }
    let adaptive = get_flag(s, next);
    let r = parse_tile_info_into(
        s,
        adaptive.next,
        &mut *info,
        &mut *cols,
        &mut *rows,
        1,
        sb128,
        sb128,
        size.max_width,
        size.max_height,
        level.level,
        level.tier,
    );
    let present = adaptive_or(adaptive.value, true);
    TilingOutcome {
        answer: r.answer,
        present,
        next: r.next,
    }
}

fn refuse_header(answer: Answer, p: Place) -> SeqRead
    ensures { result ≡ refused_header answer p }
{
    let hdr = no_seq_hdr();
    SeqRead {
        answer,
        hdr,
        next: p,
    }
}

// The last questions: is the reader without error after the film grain flag? And, strict only: after the extension bit, is there a further bit, and is it 1?
fn check_end(s: &[u8], p: Place, strict: bool) -> HeaderOutcome
    ensures { (hdr : SequenceHeader) → ask_end strict hdr s.now p ≡ ended_header result hdr }
{
    if p.error {
        return HeaderOutcome {
            answer: Answer::InvalidSequenceHeader,
            next: p,
        };
    }
    if !strict {
        return HeaderOutcome {
            answer: Answer::Accepted,
            next: p,
        };
    }
    let extension = get_flag(s, p);
    let one = get_flag(s, extension.next);
    let next = one.next;
    if next.error | !one.value {
        return HeaderOutcome {
            answer: Answer::InvalidTrailingBits,
            next,
        };
    }
    HeaderOutcome {
        answer: Answer::Accepted,
        next,
    }
}

// The groups behind the format and before the tiling; the record is still without it. Each group's numbers are put right behind its reading.
fn read_groups(
    s: &[u8],
    p: Place,
    start: Start,
    level: Level,
    format: Format,
    out: &mut [i64],
) -> SeqRead
    ensures is { result ≡ read_groups start level format s.now p }
    ensures numbers { HeadPut out.old result out.new }
{
    put_head(&mut *out, start, level, format);
    let layout = format.layout;
    let mono = is_mono(layout);
    let reduced = level.reduced_still_picture_header;
    let picture = read_picture(s, p, reduced);
    put_picture(&mut *out, picture.value);
    let blocks = read_blocks(s, picture.next, mono, reduced);
    put_blocks(&mut *out, blocks.value);
    let motion = read_motion(s, blocks.next, reduced);
    let refs = read_ref_frames(s, motion.next, reduced);
    if above(refs.value.ref_frames as u32, 8) {
        return refuse_header(Answer::InvalidSequenceHeader, refs.next);
    }
    put_motion(&mut *out, motion.value, refs.value);
    let inter = read_inter(s, refs.next, reduced);
    put_inter(&mut *out, inter.value);
    let residual = read_residual(s, inter.next, mono, reduced);
    put_residual(&mut *out, residual.value);
    let sb128 = blocks.value.partition.sb128;
    let filters = read_filters(s, residual.next, reduced, sb128);
    put_filters(&mut *out, filters.value);
    let next = filters.next;
    let t = no_tile_info();
    SeqRead {
        answer: Answer::Accepted,
        hdr: SequenceHeader {
            start,
            level,
            format,
            picture: picture.value,
            blocks: blocks.value,
            motion: motion.value,
            refs: refs.value,
            inter: inter.value,
            residual: residual.value,
            filters: filters.value,
            tiling: SeqTiling {
                present: AdaptiveBoolean::Off,
                t,
            },
            film_grain_present: false,
        },
        next,
    }
}

// Everything before the tiling.
fn read_head(s: &[u8], p: Place, out: &mut [i64]) -> SeqRead
    ensures is { result ≡ read_head s.now p }
    ensures numbers { HeadPut out.old result out.new }
{
    let start = read_start(s, p);
    if unknown_profile(start.value.profile) {
        return refuse_header(Answer::InvalidSequenceHeader, start.next);
    }
    let level = read_level(s, start.next);
    if above(level.layout_idx, 3) {
        return refuse_header(Answer::InvalidSequenceHeader, level.next);
    }
    let format = read_format(s, level.next, level.layout_idx);
    if above(format.depth_idx, 2) {
        return refuse_header(Answer::InvalidSequenceHeader, format.next);
    }
    read_groups(
        s,
        format.next,
        start.value,
        level.value,
        format.value,
        &mut *out,
    )
}

// The record with its last two fields.
fn with_tiling(hdr: SequenceHeader, tiling: SeqTiling, film_grain_present: bool) -> SequenceHeader
    ensures { result ≡ with_tiling hdr tiling film_grain_present }
{
    let mut whole = hdr;
    whole.tiling = tiling;
    whole.film_grain_present = film_grain_present;
    whole
}

// What stands behind the record before the tiling. A refusal leaves the zero layout.
fn read_rest(
    s: &[u8],
    p: Place,
    strict: bool,
    sb128: u8,
    size: FrameSize,
    level: Level,
    info: &mut [u8],
    cols: &mut [u16],
    rows: &mut [u16],
) -> RestRead
    requires room { has_room (buffers info.old cols.old rows.old) ≡ true }
    requires zero_layout { put_layout no_tile_info (buffers info.old cols.old rows.old) ≡ buffers info.old cols.old rows.old }
    ensures { let before = buffers info.old cols.old rows.old in
        let after = buffers info.new cols.new rows.new in
        let t = (read_tiling sb128 size level s.now p).value.t in
        ((hdr : SequenceHeader) → read_rest strict sb128 size level hdr s.now p ≡ whole_rest result t hdr)
        × (after ≡ pick (is_refusal result.answer) before (put_layout t before)) }
{
    let tiling = read_tiling(s, p, sb128, size, level, &mut *info, &mut *cols, &mut *rows);
    let answer = tiling.answer;
    let next = tiling.next;
    if is_refusal(answer) {
        return RestRead {
            answer: Answer::InvalidTileInfo,
            present: AdaptiveBoolean::Off,
            film_grain_present: false,
            next,
        };
    }
    let grain = get_flag(s, next);
    let end = check_end(s, grain.next, strict);
    let answer = end.answer;
    let next = end.next;
    if is_refusal(answer) {
        clear_layout(&mut *info, &mut *cols, &mut *rows);
    }
    let present = tiling.present;
    RestRead {
        answer,
        present,
        film_grain_present: grain.value,
        next,
    }
}

// parse_seq_hdr into lent buffers: the numbers, and those of the layout. A refused header's are zeros.
pub fn read_seq_hdr(
    s: &[u8],
    p: Place,
    strict: bool,
    out: &mut [i64],
    info: &mut [u8],
    cols: &mut [u16],
    rows: &mut [u16],
) -> HeaderOutcome
    ensures outcome { let before = buffers info.old cols.old rows.old in
        let after = buffers info.new cols.new rows.new in
        (result, out.new, after) ≡ parse_seq_hdr_into s.now p strict out.old before }
    ensures layout_put { let before = buffers info.old cols.old rows.old in
        let after = buffers info.new cols.new rows.new in
        (has_room before ≡ true → layout_in after ≡ (parse_seq_hdr s.now p strict).hdr.tiling.t) }
    ensures header_tiling { let before = buffers info.old cols.old rows.old in
        let after = buffers info.new cols.new rows.new in
        (has_room before ≡ true → HeaderTiling s.now p (number_of result.answer) (layout_in after)) }
{
    if !has_room(&*info, &*cols, &*rows) {
        return HeaderOutcome {
            answer: Answer::ShortBuffer,
            next: p,
        };
    }
    clear_layout(&mut *info, &mut *cols, &mut *rows);
    let head = read_head(s, p, &mut *out);
    let answer = head.answer;
    let next = head.next;
    if is_refusal(answer) {
        put_zeros(&mut *out);
        return HeaderOutcome { answer, next };
    }
    let rest = read_rest(
        s,
        next,
        strict,
        head.hdr.blocks.partition.sb128,
        head.hdr.picture.size,
        head.hdr.level,
        &mut *info,
        &mut *cols,
        &mut *rows,
    );
    let answer = rest.answer;
    let next = rest.next;
    if is_refusal(answer) {
        put_zeros(&mut *out);
        return HeaderOutcome { answer, next };
    }
    let present = rest.present;
    put_last(&mut *out, present, rest.film_grain_present);
    HeaderOutcome { answer, next }
}

// The record by value: it lends the numbers and the layout buffers of its own.
pub fn parse_seq_hdr(s: &[u8], p: Place, strict: bool) -> SeqRead
    ensures value { result ≡ parse_seq_hdr s.now p strict }
    ensures header_layout { HeaderLayout s.now p result }
{
    let mut numbers = [0i64; 146];
    let head = read_head(s, p, &mut numbers);
    let answer = head.answer;
    if is_refusal(answer) {
        return head;
    }
    let mut info = [0u8; 9];
    let mut cols = [0u16; 65];
    let mut rows = [0u16; 65];
    let rest = read_rest(
        s,
        head.next,
        strict,
        head.hdr.blocks.partition.sb128,
        head.hdr.picture.size,
        head.hdr.level,
        &mut info,
        &mut cols,
        &mut rows,
    );
    let answer = rest.answer;
    let next = rest.next;
    if is_refusal(answer) {
        return refuse_header(answer, next);
    }
    let t = tile_info_of(&info, &cols, &rows);
    let hdr = with_tiling(
        head.hdr,
        SeqTiling {
            present: rest.present,
            t,
        },
        rest.film_grain_present,
    );
    SeqRead { answer, hdr, next }
}
