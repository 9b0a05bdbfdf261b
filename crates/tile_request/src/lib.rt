// What the programs tile, over, frame, panel, rects and write share: a request with tiling bits and a layout's record in bytes, and the text of a layout.
#![tactic(auto)]

ghost use Rattle.std.specs.Prelude.{◌≡◌, ◌+◌, ◌≤◌, pos, length};
ghost use Rattle.program.specs.Output.{starts_text};
ghost use Rattle.superblocks.specs.Counts.{multiplier_of};
ghost use Rattle.text.specs.Text.{put};
ghost use Rattle.tile_request.specs.Layout.{starts_at, given_layout};
ghost use Rattle.tile_request.specs.Print.{tile_head_text, tile_layout_text, tile_read_text};
ghost use Rattle.tile_request.specs.Request.{samples_at, is_tile_request, request_over, tile_request};
ghost use Rattle.tile_request.specs.Whole.{whole_layout_text};

use answers::{Answer, is_refusal, number};
use getbits::Place;
use lent::{is_set, position_of};
use program::{byte_at, is_input, put_accepted, put_refused, two_at};
use superblocks::multiplier_of;
use text::Text;
use tile_info::parse_tile_info;
use tile_layout::{TileInfo, TileRead, no_tile_info};

pub mod slices;
mod whole;

use whole::{put_logs, put_whole_head};

// A width or a height.
pub fn samples(s: &[u8], i: usize) -> i32
    ensures { result ≡ pos (samples_at s.now i) }
{
    (two_at(s, i) + 1) as i32
}

// The multiplier that belongs to a pair of codes.
pub fn multiplier(sb128: u8, seq_sb128: u8) -> i32
    ensures { result ≡ pos (multiplier_of sb128 seq_sb128) }
{
    multiplier_of(sb128, seq_sb128) as i32
}

fn starts_at(s: &[u8], i: usize) -> [u16; 65]
    requires { i ≤ 139 }
    ensures { result ≡ starts_at s.now i }
{
    let mut starts = [0u16; 65];
    for k in 0..65 {
        starts[k] = two_at(s, i + 2 * k) as u16;
    }
    starts
}

// A layout's record in the first 269 bytes; a byte that is missing is 0.
pub fn given_layout(s: &[u8]) -> TileInfo
    ensures { result ≡ given_layout s.now }
{
    let col_start_sb = starts_at(s, 9);
    let row_start_sb = starts_at(s, 139);
    TileInfo {
        uniform: is_set(byte_at(s, 0)),
        min_log2_cols: byte_at(s, 1),
        max_log2_cols: byte_at(s, 2),
        log2_cols: byte_at(s, 3),
        cols: byte_at(s, 4),
        min_log2_rows: byte_at(s, 5),
        max_log2_rows: byte_at(s, 6),
        log2_rows: byte_at(s, 7),
        rows: byte_at(s, 8),
        col_start_sb,
        row_start_sb,
    }
}

fn is_request(s: &[u8]) -> bool
    ensures { result ≡ is_tile_request s.now }
{
    (8 <= s.len()) & is_input(s)
}

// Tiling bits are read over the layout `old`.
pub fn request_over(old: TileInfo, s: &[u8]) -> TileRead
    ensures { result ≡ request_over old s.now }
{
    let start = Place {
        byte: 0,
        used: 0,
        error: false,
    };
    if is_request(s) {
        let sb128 = s[4];
        let seq_sb128 = s[5];
        let sbmul = multiplier(sb128, seq_sb128);
        let w = samples(s, 0);
        let h = samples(s, 2);
        return parse_tile_info(
            &s[8..],
            start,
            old,
            sbmul,
            sb128,
            seq_sb128,
            w,
            h,
            s[6],
            s[7],
        );
    }
    TileRead {
        answer: Answer::WrongArguments,
        info: old,
        next: start,
    }
}

pub fn tile_request(s: &[u8]) -> TileRead
    ensures { result ≡ tile_request s.now }
{
    request_over(no_tile_info(), s)
}

#[tactic(auto, unfolding(crate::specs::Print::tile_head_text))]
fn put_head<const N: usize>(out: &mut Text<N>, t: &TileInfo, next: Place)
    ensures text { out.new ≡ put N out.old (tile_head_text t.now next) }
    ensures size { length (tile_head_text t.now next) ≤ 89 }
{
    let xs = [
        u64::from(t.cols),
        u64::from(t.rows),
        position_of(next) as u64,
        u64::from(next.error),
    ];
    put_accepted(out, t.uniform, &xs);
}

// The n starts and the closing one.
fn put_starts<const N: usize>(out: &mut Text<N>, starts: &[u16; 65], n: u8)
    ensures text { out.new ≡ put N out.old (starts_text starts.now (n + 1)) }
    ensures size { length (starts_text starts.now (n + 1)) ≤ 5377 }
{
    out.push_row(starts, usize::from(n) + 1);
}

#[tactic(auto, using(text::proofs::Puts::puts), unfolding(crate::specs::Print::tile_layout_text))]
fn put_layout<const N: usize>(out: &mut Text<N>, t: &TileInfo, next: Place)
    ensures text { out.new ≡ put N out.old (tile_layout_text t.now next) }
    ensures size { length (tile_layout_text t.now next) ≤ 10843 }
{
    put_head(out, t, next);
    put_starts(out, &t.col_start_sb, t.cols);
    put_starts(out, &t.row_start_sb, t.rows);
}

#[tactic(auto, unfolding(crate::specs::Print::tile_read_text))]
pub fn put_tile_read<const N: usize>(out: &mut Text<N>, r: &TileRead)
    ensures text { out.new ≡ put N out.old (tile_read_text r.now) }
    ensures size { length (tile_read_text r.now) ≤ 10843 }
{
    if is_refusal(r.answer) {
        put_refused(out, number(r.answer));
    } else {
        put_layout(out, &r.info, r.next);
    }
}

// A layout with all its starts and its logarithms.
#[tactic(auto, using(text::proofs::Puts::puts), unfolding(crate::specs::Whole::whole_layout_text))]
pub fn put_whole_layout<const N: usize>(out: &mut Text<N>, t: &TileInfo, next: Place, sb128: u8)
    ensures text { out.new ≡ put N out.old (whole_layout_text t.now next sb128) }
    ensures size { length (whole_layout_text t.now next sb128) ≤ 2969 }
{
    put_whole_head(out, t, next, sb128);
    out.push_row(&t.col_start_sb, 65);
    out.push_row(&t.row_start_sb, 65);
    put_logs(out, t);
}
