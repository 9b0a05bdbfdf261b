// Replays the stored answers that the file `answers` has, and prints for each operation how many were replayed and how many agree.
#![tactic(auto)]

ghost use Rattle.std.specs.Prelude.{◌≡◌, ◌^◌, ◌<◌, ◌≤◌, length};

use capi::{mubanlig_parse_seg_info, mubanlig_parse_seq_hdr, mubanlig_write_tile_info};
use capi_bits::{
    mubanlig_byte_pos, mubanlig_bytealign, mubanlig_get_bit, mubanlig_get_bits,
    mubanlig_get_bits_subexp, mubanlig_get_bits_subexp_u, mubanlig_get_golomb,
    mubanlig_get_ref_uniform, mubanlig_get_sbits, mubanlig_get_uleb128, mubanlig_get_uniform,
    mubanlig_get_vlc, mubanlig_remaining_bytes,
};
use capi_frame::mubanlig_parse_tile_info_frmhdr;
use capi_grain::mubanlig_parse_film_grain_data;
use capi_tiles::{mubanlig_parse_tile_info, mubanlig_tile_rectangles};
use capi_within::{mubanlig_parse_tile_info_frmhdr_within, mubanlig_parse_tile_info_within};
use codes::get_uleb128;
use getbits::Place;
use program::{read_full, report_written};
use std::fs::File;
use std::io;
use std::io::Read;
use verdicts::{Count, Tally, Verdict, agrees, counted, signed};

#[derive(Clone, Copy, PartialEq, Eq)]
enum Operation {
    GetBit,
    GetBits,
    GetSbits,
    GetVlc,
    GetUniform,
    GetRefUniform,
    GetUleb128,
    GetGolomb,
    GetBitsSubexpU,
    GetBitsSubexp,
    Bytealign,
    ParseTileInfo,
    ParseSeqHdr,
    ParseTileInfoFrmhdr,
    ParseSegInfo,
    Positions,
    TileRectangles,
    ParseTileInfoWithin,
    ParseTileInfoFrmhdrWithin,
    ParseFilmGrainData,
    WriteTileInfo,
}

// In the order of their numbers in the file.
const OPERATIONS: [Operation; 21] = [
    Operation::GetBit,
    Operation::GetBits,
    Operation::GetSbits,
    Operation::GetVlc,
    Operation::GetUniform,
    Operation::GetRefUniform,
    Operation::GetUleb128,
    Operation::GetGolomb,
    Operation::GetBitsSubexpU,
    Operation::GetBitsSubexp,
    Operation::Bytealign,
    Operation::ParseTileInfo,
    Operation::ParseSeqHdr,
    Operation::ParseTileInfoFrmhdr,
    Operation::ParseSegInfo,
    Operation::Positions,
    Operation::TileRectangles,
    Operation::ParseTileInfoWithin,
    Operation::ParseTileInfoFrmhdrWithin,
    Operation::ParseFilmGrainData,
    Operation::WriteTileInfo,
];

// Numbers of a case, and the place behind them.
#[derive(Clone, Copy)]
struct Row {
    numbers: [u32; 512],
    count: usize,
    next: Place,
}

// A number of a row, how many zeros follow it, and the place behind it.
#[derive(Clone, Copy)]
struct RowNumber {
    value: u32,
    zeros: u32,
    next: Place,
}

// The number at i, and 0 past the end.
fn u32_at(xs: &[u32], i: usize) -> u32 {
    xs.get(i).copied().unwrap_or(0)
}

fn u8_at(xs: &[u32], i: usize) -> u8 {
    (u32_at(xs, i) % 256) as u8
}

fn u16_at(xs: &[u32], i: usize) -> u16 {
    (u32_at(xs, i) % 65536) as u16
}

fn i32_at(xs: &[u32], i: usize) -> i32 {
    signed(u32_at(xs, i))
}

// A number of 16 bits with its sign.
fn i16_at(xs: &[u32], i: usize) -> i16 {
    u16_at(xs, i).cast_signed()
}

// A count of bits or bytes; no case has one from 2^31 on.
fn count(n: usize) -> i64 {
    n.min(0x8000_0000) as i64
}

// The number at i, at most `most`.
fn held_at(xs: &[u32], i: usize, most: usize) -> usize
    ensures { result ≤ most }
{
    (u32_at(xs, i) as usize).min(most)
}

// The nine numbers of a layout from i on, in a buffer with room for two more.
fn info_at(xs: &[u32], i: usize) -> [u8; 11]
    requires { i ≤ 512 }
{
    let mut info = [0u8; 11];
    for k in 0..9 {
        info[k] = u8_at(xs, i + k);
    }
    info
}

// The 65 starts from i on, in a buffer with room for two more.
fn starts_at(xs: &[u32], i: usize) -> [u16; 67]
    requires { i ≤ 512 }
{
    let mut starts = [0u16; 67];
    for k in 0..65 {
        starts[k] = u16_at(xs, i + k);
    }
    starts
}

// The 16 deltas of the segments, in a buffer with room for two more.
fn first_deltas(xs: &[u32]) -> [i16; 18] {
    let mut delta_q = [0i16; 18];
    for k in 0..16 {
        delta_q[k] = i16_at(xs, k);
    }
    delta_q
}

// Numbers from the first one on.
fn numbers_from(first: u32) -> [u32; 450] {
    let low = first % 0x4000_0000;
    let mut numbers = [0u32; 450];
    for k in 0..450 {
        numbers[k] = low + k as u32;
    }
    numbers
}

// Bytes from the first one on; 0 follows 255.
fn bytes_from(first: u32) -> [u8; 256] {
    let low = first % 256;
    let mut bytes = [0u8; 256];
    for k in 0..256 {
        bytes[k] = ((low + k as u32) % 256) as u8;
    }
    bytes
}

fn store(out: &mut [i64], i: usize, n: i64)
    ensures { length out.new ≡ length out.old }
{
    if i < out.len() {
        out[i] = n;
    }
}

// Numbers go to the places from i on.
fn store_row<T: Copy + Into<i64>>(out: &mut [i64], i: usize, xs: &[T])
    ensures { length out.new ≡ length out.old }
{
    for (to, x) in out.iter_mut().skip(i).zip(xs) {
        *to = (*x).into();
    }
}

// The 139 numbers of a layout go to the places from i on.
fn store_layout(out: &mut [i64], i: usize, info: &[u8; 11], cols: &[u16; 67], rows: &[u16; 67])
    requires { i ≤ 200 }
{
    store_row(&mut *out, i, &info[..9]);
    store_row(&mut *out, i + 9, &cols[..65]);
    store_row(&mut *out, i + 74, &rows[..65]);
}

// The layout's buffers are lent as long as the arguments say, and so below. A limit stands behind these lengths.
fn lend_layout(
    operation: Operation,
    s: &[u8],
    position: &mut usize,
    error: &mut u8,
    args: &[u32],
    info: &mut [u8],
    cols: &mut [u16],
    rows: &mut [u16],
) -> u32 {
    let a = held_at(args, 146, info.len());
    let b = held_at(args, 147, cols.len());
    let c = held_at(args, 148, rows.len());
    if operation == Operation::ParseTileInfoWithin {
        return mubanlig_parse_tile_info_within(
            s,
            &mut *position,
            &mut *error,
            &mut info[..a],
            &mut cols[..b],
            &mut rows[..c],
            i32_at(args, 139),
            u8_at(args, 140),
            u8_at(args, 141),
            i32_at(args, 142),
            i32_at(args, 143),
            u8_at(args, 144),
            u8_at(args, 145),
            u8_at(args, 149),
            u8_at(args, 150),
        );
    }
    mubanlig_parse_tile_info(
        s,
        &mut *position,
        &mut *error,
        &mut info[..a],
        &mut cols[..b],
        &mut rows[..c],
        i32_at(args, 139),
        u8_at(args, 140),
        u8_at(args, 141),
        i32_at(args, 142),
        i32_at(args, 143),
        u8_at(args, 144),
        u8_at(args, 145),
    )
}

fn replay_layout(
    operation: Operation,
    s: &[u8],
    position: &mut usize,
    error: &mut u8,
    args: &[u32],
    out: &mut [i64],
) -> u32 {
    let mut info = info_at(args, 0);
    let mut cols = starts_at(args, 9);
    let mut rows = starts_at(args, 74);
    let answer = lend_layout(
        operation,
        s,
        &mut *position,
        &mut *error,
        args,
        &mut info,
        &mut cols,
        &mut rows,
    );
    store_layout(&mut *out, 3, &info, &cols, &rows);
    answer
}

fn lend_header(
    s: &[u8],
    position: &mut usize,
    error: &mut u8,
    args: &[u32],
    hdr: &mut [i64],
    info: &mut [u8],
    cols: &mut [u16],
    rows: &mut [u16],
) -> u32 {
    let a = held_at(args, 1, hdr.len());
    let b = held_at(args, 2, info.len());
    let c = held_at(args, 3, cols.len());
    let d = held_at(args, 4, rows.len());
    mubanlig_parse_seq_hdr(
        s,
        &mut *position,
        &mut *error,
        u8_at(args, 0),
        &mut hdr[..a],
        &mut info[..b],
        &mut cols[..c],
        &mut rows[..d],
    )
}

// Each number that is lent is 7 before.
fn replay_header(
    s: &[u8],
    position: &mut usize,
    error: &mut u8,
    args: &[u32],
    out: &mut [i64],
) -> u32 {
    let mut hdr = [7i64; 148];
    let mut info = [7u8; 11];
    let mut cols = [7u16; 67];
    let mut rows = [7u16; 67];
    let answer = lend_header(
        s,
        &mut *position,
        &mut *error,
        args,
        &mut hdr,
        &mut info,
        &mut cols,
        &mut rows,
    );
    store_row(&mut *out, 3, &hdr[..146]);
    store_layout(&mut *out, 149, &info, &cols, &rows);
    answer
}

fn lend_frame(
    operation: Operation,
    s: &[u8],
    position: &mut usize,
    error: &mut u8,
    args: &[u32],
    sb128: &mut u8,
    info: &mut [u8],
    cols: &mut [u16],
    rows: &mut [u16],
    seq_info: &[u8],
    seq_cols: &[u16],
    seq_rows: &[u16],
) -> u32 {
    let a = held_at(args, 288, info.len());
    let b = held_at(args, 289, cols.len());
    let c = held_at(args, 290, rows.len());
    let d = held_at(args, 291, seq_info.len());
    let e = held_at(args, 292, seq_cols.len());
    let f = held_at(args, 293, seq_rows.len());
    if operation == Operation::ParseTileInfoFrmhdrWithin {
        return mubanlig_parse_tile_info_frmhdr_within(
            s,
            &mut *position,
            &mut *error,
            u8_at(args, 0),
            i32_at(args, 1),
            i32_at(args, 2),
            &mut *sb128,
            &mut info[..a],
            &mut cols[..b],
            &mut rows[..c],
            u8_at(args, 143),
            i32_at(args, 144),
            i32_at(args, 145),
            u8_at(args, 146),
            u8_at(args, 147),
            u8_at(args, 148),
            &seq_info[..d],
            &seq_cols[..e],
            &seq_rows[..f],
            u8_at(args, 294),
            u8_at(args, 295),
        );
    }
    mubanlig_parse_tile_info_frmhdr(
        s,
        &mut *position,
        &mut *error,
        u8_at(args, 0),
        i32_at(args, 1),
        i32_at(args, 2),
        &mut *sb128,
        &mut info[..a],
        &mut cols[..b],
        &mut rows[..c],
        u8_at(args, 143),
        i32_at(args, 144),
        i32_at(args, 145),
        u8_at(args, 146),
        u8_at(args, 147),
        u8_at(args, 148),
        &seq_info[..d],
        &seq_cols[..e],
        &seq_rows[..f],
    )
}

fn replay_frame(
    operation: Operation,
    s: &[u8],
    position: &mut usize,
    error: &mut u8,
    args: &[u32],
    out: &mut [i64],
) -> u32 {
    let mut sb128 = u8_at(args, 3);
    let mut info = info_at(args, 4);
    let mut cols = starts_at(args, 13);
    let mut rows = starts_at(args, 78);
    let seq_info = info_at(args, 149);
    let seq_cols = starts_at(args, 158);
    let seq_rows = starts_at(args, 223);
    let answer = lend_frame(
        operation,
        s,
        &mut *position,
        &mut *error,
        args,
        &mut sb128,
        &mut info,
        &mut cols,
        &mut rows,
        &seq_info,
        &seq_cols,
        &seq_rows,
    );
    store(&mut *out, 3, i64::from(sb128));
    store_layout(&mut *out, 4, &info, &cols, &rows);
    answer
}

fn lend_segments(
    s: &[u8],
    position: &mut usize,
    error: &mut u8,
    args: &[u32],
    delta_q: &mut [i16],
    masks: &mut [u16],
) -> u32 {
    let a = held_at(args, 20, delta_q.len());
    let b = held_at(args, 21, masks.len());
    mubanlig_parse_seg_info(
        s,
        &mut *position,
        &mut *error,
        &mut delta_q[..a],
        &mut masks[..b],
        u8_at(args, 19),
    )
}

fn replay_segments(
    s: &[u8],
    position: &mut usize,
    error: &mut u8,
    args: &[u32],
    out: &mut [i64],
) -> u32 {
    let mut delta_q = first_deltas(args);
    let mut masks = [u16_at(args, 16), u16_at(args, 17), u16_at(args, 18), 0, 0];
    let answer = lend_segments(
        s,
        &mut *position,
        &mut *error,
        args,
        &mut delta_q,
        &mut masks,
    );
    store_row(&mut *out, 3, &delta_q[..16]);
    store_row(&mut *out, 19, &masks[..3]);
    answer
}

fn lend_grain(
    s: &[u8],
    position: &mut usize,
    error: &mut u8,
    args: &[u32],
    fgd: &mut [i16],
) -> u32 {
    let a = held_at(args, 1, fgd.len());
    mubanlig_parse_film_grain_data(
        s,
        &mut *position,
        &mut *error,
        u8_at(args, 0),
        &mut fgd[..a],
    )
}

// Each number that is lent is 7 before.
fn replay_grain(
    s: &[u8],
    position: &mut usize,
    error: &mut u8,
    args: &[u32],
    out: &mut [i64],
) -> u32 {
    let mut fgd = [7i16; 188];
    let answer = lend_grain(s, &mut *position, &mut *error, args, &mut fgd);
    store_row(&mut *out, 3, &fgd[..186]);
    answer
}

fn lend_rectangles(
    args: &[u32],
    info: &[u8],
    cols: &[u16],
    rows: &[u16],
    numbers: &mut [u32],
) -> u32 {
    let a = held_at(args, 144, info.len());
    let b = held_at(args, 145, cols.len());
    let c = held_at(args, 146, rows.len());
    mubanlig_tile_rectangles(
        &info[..a],
        &cols[..b],
        &rows[..c],
        u8_at(args, 139),
        i32_at(args, 140),
        i32_at(args, 141),
        &mut *numbers,
    )
}

// The answer, then the numbers lent; how many these are in all.
fn replay_rectangles(args: &[u32], out: &mut [i64]) -> usize
    ensures { result ≤ 512 }
{
    let info = info_at(args, 0);
    let cols = starts_at(args, 9);
    let rows = starts_at(args, 74);
    let mut numbers = numbers_from(u32_at(args, 143));
    let len = held_at(args, 142, 450);
    let answer = lend_rectangles(args, &info, &cols, &rows, &mut numbers[..len]);
    store(&mut *out, 0, i64::from(answer));
    store_row(&mut *out, 1, &numbers[..len]);
    1 + len
}

fn lend_writing(
    args: &[u32],
    info: &[u8],
    cols: &[u16],
    rows: &[u16],
    bytes: &mut [u8],
    bits: &mut u32,
) -> u32 {
    let a = held_at(args, 148, info.len());
    let b = held_at(args, 149, cols.len());
    let c = held_at(args, 150, rows.len());
    mubanlig_write_tile_info(
        &info[..a],
        &cols[..b],
        &rows[..c],
        i32_at(args, 139),
        u8_at(args, 140),
        u8_at(args, 141),
        i32_at(args, 142),
        i32_at(args, 143),
        u8_at(args, 144),
        u8_at(args, 145),
        &mut *bytes,
        &mut *bits,
    )
}

// The answer and how many bits, then the bytes lent; how many numbers these are in all.
fn replay_writing(args: &[u32], out: &mut [i64]) -> usize
    ensures { result ≤ 512 }
{
    let info = info_at(args, 0);
    let cols = starts_at(args, 9);
    let rows = starts_at(args, 74);
    let mut bytes = bytes_from(u32_at(args, 147));
    let mut bits: u32 = 7;
    let len = held_at(args, 146, 256);
    let answer = lend_writing(args, &info, &cols, &rows, &mut bytes[..len], &mut bits);
    store(&mut *out, 0, i64::from(answer));
    store(&mut *out, 1, i64::from(bits));
    store_row(&mut *out, 2, &bytes[..len]);
    2 + len
}

// The value of a reading.
fn replay_reading(
    operation: Operation,
    s: &[u8],
    position: &mut usize,
    error: &mut u8,
    args: &[u32],
) -> i64 {
    let p = &mut *position;
    let e = &mut *error;
    match operation {
        Operation::GetBit => mubanlig_get_bit(s, &mut *p, &mut *e) as i64,
        Operation::GetBits => mubanlig_get_bits(s, &mut *p, &mut *e, i32_at(args, 0)) as i64,
        Operation::GetSbits => i64::from(mubanlig_get_sbits(s, &mut *p, &mut *e, i32_at(args, 0))),
        Operation::GetVlc => mubanlig_get_vlc(s, &mut *p, &mut *e) as i64,
        Operation::GetUniform => mubanlig_get_uniform(s, &mut *p, &mut *e, u32_at(args, 0)) as i64,
        Operation::GetRefUniform => mubanlig_get_ref_uniform(
            s,
            &mut *p,
            &mut *e,
            u32_at(args, 0),
            u32_at(args, 1),
        ) as i64,
        Operation::GetUleb128 => mubanlig_get_uleb128(s, &mut *p, &mut *e) as i64,
        Operation::GetGolomb => mubanlig_get_golomb(s, &mut *p, &mut *e, u32_at(args, 0)) as i64,
        Operation::GetBitsSubexpU => mubanlig_get_bits_subexp_u(
            s,
            &mut *p,
            &mut *e,
            u32_at(args, 0),
            u32_at(args, 1),
            i32_at(args, 2),
        ) as i64,
        Operation::GetBitsSubexp => i64::from(mubanlig_get_bits_subexp(
            s,
            &mut *p,
            &mut *e,
            i32_at(args, 0),
            u32_at(args, 1),
        )),
        _ => {
            mubanlig_bytealign(s, &mut *p);
            0
        }
    }
}

// The value of a reading or the answer of a parse function, whose record goes into out.
fn replay_value(
    operation: Operation,
    s: &[u8],
    position: &mut usize,
    error: &mut u8,
    args: &[u32],
    out: &mut [i64],
) -> i64 {
    let answer = match operation {
        Operation::ParseSeqHdr => replay_header(s, &mut *position, &mut *error, args, &mut *out),
        Operation::ParseSegInfo => replay_segments(s, &mut *position, &mut *error, args, &mut *out),
        Operation::ParseFilmGrainData => {
            replay_grain(s, &mut *position, &mut *error, args, &mut *out)
        }
        Operation::ParseTileInfo | Operation::ParseTileInfoWithin => {
            replay_layout(operation, s, &mut *position, &mut *error, args, &mut *out)
        }
        Operation::ParseTileInfoFrmhdr | Operation::ParseTileInfoFrmhdrWithin => {
            replay_frame(operation, s, &mut *position, &mut *error, args, &mut *out)
        }
        _ => return replay_reading(operation, s, &mut *position, &mut *error, args),
    };
    i64::from(answer)
}

// How many numbers the outcome of a reading or of a parse function has.
fn outcome_count(operation: Operation) -> usize
    ensures { result ≤ 512 }
{
    match operation {
        Operation::ParseTileInfo | Operation::ParseTileInfoWithin => 142,
        Operation::ParseSeqHdr => 288,
        Operation::ParseTileInfoFrmhdr | Operation::ParseTileInfoFrmhdrWithin => 143,
        Operation::ParseSegInfo => 22,
        Operation::ParseFilmGrainData => 189,
        _ => 3,
    }
}

// Replays a case; its outcome goes into out, and so many numbers it has.
fn replay_operation(
    operation: Operation,
    s: &[u8],
    place: &[u32],
    args: &[u32],
    out: &mut [i64],
) -> usize
    ensures { result ≤ 512 }
{
    let mut position = u32_at(place, 0) as usize;
    let mut error = u8_at(place, 1);
    match operation {
        Operation::Positions => {
            store(&mut *out, 0, count(mubanlig_byte_pos(s, position)));
            store(&mut *out, 1, count(mubanlig_remaining_bytes(s, position)));
            2
        }
        Operation::TileRectangles => replay_rectangles(args, &mut *out),
        Operation::WriteTileInfo => replay_writing(args, &mut *out),
        _ => {
            let value = replay_value(operation, s, &mut position, &mut error, args, &mut *out);
            store(&mut *out, 0, value);
            store(&mut *out, 1, count(position));
            store(&mut *out, 2, i64::from(error));
            outcome_count(operation)
        }
    }
}

fn case_agrees(operation: Operation, s: &[u8], place: Row, args: Row, outcome: Row) -> bool {
    let mut out = [0i64; 512];
    let n = replay_operation(operation, s, &place.numbers, &args.numbers, &mut out);
    agrees(&out, n, &outcome.numbers, outcome.count)
}

fn at_most_512(n: u32) -> usize
    ensures { result ≤ 512 }
{
    n.min(512) as usize
}

// The next number of a row, behind which so many zeros are left; behind a 0 stands how many follow it.
fn next_number(case: &[u8], p: Place, zeros: u32) -> RowNumber {
    if 0 < zeros {
        return RowNumber {
            value: 0,
            zeros: zeros - 1,
            next: p,
        };
    }
    let r = get_uleb128(case, p);
    if r.value == 0 {
        let z = get_uleb128(case, r.next);
        return RowNumber {
            value: 0,
            zeros: z.value,
            next: z.next,
        };
    }
    RowNumber {
        value: r.value,
        zeros: 0,
        next: r.next,
    }
}

// n numbers of a case, 512 at most.
fn numbers(case: &[u8], p: Place, n: u32) -> Row {
    let count = at_most_512(n);
    let mut numbers = [0u32; 512];
    let mut next = p;
    let mut zeros: u32 = 0;
    for i in 0..count {
        let r = next_number(case, next, zeros);
        numbers[i] = r.value;
        zeros = r.zeros;
        next = r.next;
    }
    Row {
        numbers,
        count,
        next,
    }
}

// A row of numbers behind their count.
fn counted_row(case: &[u8], p: Place) -> Row {
    let n = get_uleb128(case, p);
    numbers(case, n.next, n.value)
}

// A case: the operation, the bytes behind their length, the place, the arguments and the outcome.
fn replay(case: &[u8]) -> Verdict {
    let start = Place {
        byte: 0,
        used: 0,
        error: false,
    };
    let kind = get_uleb128(case, start);
    let length = get_uleb128(case, kind.next);
    let from = length.next.byte;
    let len = length.value as usize;
    if from <= case.len() {
        if len <= case.len() - from {
            let to = from + len;
            let behind = Place {
                byte: to,
                used: 0,
                error: false,
            };
            let place = counted_row(case, behind);
            let args = counted_row(case, place.next);
            let outcome = counted_row(case, args.next);
            if let Some(operation) = OPERATIONS.get(kind.value as usize) {
                return Verdict {
                    kind: kind.value as usize,
                    agrees: case_agrees(*operation, &case[from..to], place, args, outcome),
                };
            }
        }
    }
    Verdict {
        kind: 21,
        agrees: false,
    }
}

// The verdict on the next case of the file, which stands behind its length in two bytes, the low one first.
fn next_verdict<R: Read>(file: &mut R) -> io::Result<Option<Verdict>> {
    let mut head = [0u8; 2];
    let n = read_full(&mut *file, &mut head)?;
    if n < 2 {
        return Ok(None);
    }
    let size = u16::from_le_bytes(head) as usize;
    let mut case = [0u8; 65536];
    read_full(&mut *file, &mut case[..size])?;
    Ok(Some(replay(&case[..size])))
}

// At most a million cases.
fn replay_all<R: Read>(file: &mut R, none: Tally) -> io::Result<Tally> {
    let mut tally = none;
    for _turn in 0..1_000_000 {
        let Some(verdict) = next_verdict(&mut *file)? else {
            break;
        };
        tally = counted(tally, verdict);
    }
    Ok(tally)
}

fn print<R: Print>(rt: &R, text: &[u8]) -> bool {
    rt.write_all(text).is_ok()
}

fn print_name<R: Print>(rt: &R, operation: Operation) -> bool {
    match operation {
        Operation::GetBit => print(rt, b"get_bit"),
        Operation::GetBits => print(rt, b"get_bits"),
        Operation::GetSbits => print(rt, b"get_sbits"),
        Operation::GetVlc => print(rt, b"get_vlc"),
        Operation::GetUniform => print(rt, b"get_uniform"),
        Operation::GetRefUniform => print(rt, b"get_ref_uniform"),
        Operation::GetUleb128 => print(rt, b"get_uleb128"),
        Operation::GetGolomb => print(rt, b"get_golomb"),
        Operation::GetBitsSubexpU => print(rt, b"get_bits_subexp_u"),
        Operation::GetBitsSubexp => print(rt, b"get_bits_subexp"),
        Operation::Bytealign => print(rt, b"bytealign"),
        Operation::ParseTileInfo => print(rt, b"parse_tile_info"),
        Operation::ParseSeqHdr => print(rt, b"parse_seq_hdr"),
        Operation::ParseTileInfoFrmhdr => print(rt, b"parse_tile_info_frmhdr"),
        Operation::ParseSegInfo => print(rt, b"parse_seg_info"),
        Operation::Positions => print(rt, b"positions"),
        Operation::TileRectangles => print(rt, b"tile_rectangles"),
        Operation::ParseTileInfoWithin => print(rt, b"parse_tile_info_within"),
        Operation::ParseTileInfoFrmhdrWithin => print(rt, b"parse_tile_info_frmhdr_within"),
        Operation::ParseFilmGrainData => print(rt, b"parse_film_grain_data"),
        Operation::WriteTileInfo => print(rt, b"write_tile_info"),
    }
}

// The name, how many were replayed and how many agree. Could the line's end be written?
fn print_line<R: Print>(rt: &R, operation: Operation, count: Count) -> bool {
    print_name(rt, operation);
    print(rt, b" ");
    rt.print(count.replayed).is_ok();
    print(rt, b" ");
    rt.print(count.agree).is_ok();
    print(rt, b"\n")
}

// A line for each operation. Could the last be written?
fn print_tally<R: Print>(rt: &R, t: Tally) -> bool {
    let mut written = true;
    for (operation, count) in OPERATIONS.iter().zip(&t.counts) {
        written = print_line(rt, *operation, *count);
    }
    written
}

fn main(rt: HostRuntime) -> io::Result<()> {
    let mut file = File::open(&rt, "answers")?;
    let none = Tally {
        counts: [Count {
            replayed: 0,
            agree: 0,
        }; 21],
    };
    let tally = replay_all(&mut file, none)?;
    report_written(&rt, print_tally(&rt, tally));
    Ok(())
}
