// What the programs frame, panel, rects and draw share: a sequence header, a frame and tiling bits in bytes, and the text of a frame's layout.
#![tactic(auto)]

ghost use Rattle.std.specs.Prelude.{true, ◌≡◌, ◌≤◌, length};
ghost use Rattle.text.specs.Text.{put};
ghost use Rattle.frame_request.specs.Print.{frame_read_text};
ghost use Rattle.frame_request.specs.Request.{frame_of, given_frame, is_frame_request, no_frame, request_header, sequence_args, frame_request};

use answers::{Answer, is_refusal, number};
use frame_hdr::parse_tile_info_frmhdr;
use frame_layout::{FrameHeader, FrameRead, FrameType, frame_type_of};
use getbits::Place;
use program::{byte_at, is_input, put_refused, two_at};
use seq_hdr::{SeqRead, parse_seq_hdr};
use text::Text;
use tile_layout::no_tile_info;
use tile_request::put_whole_layout;

pub mod slices;

// What a frame's layout is read for besides the frame.
#[derive(Clone, Copy)]
pub struct SequenceArgs {
    pub seq_sb128: u8,
    pub level: u8,
    pub tier: u8,
}

// A frame of a type and a size, with the zero layout.
fn frame_of(frame_type: FrameType, w: usize, h: usize) -> FrameHeader
    requires { (w ≤ 65536) × (h ≤ 65536) }
    ensures { result ≡ frame_of frame_type w h }
{
    let tiling = no_tile_info();
    FrameHeader {
        frame_type,
        width: w as i32,
        height: h as i32,
        sb128: 0,
        tiling,
    }
}

// The frame's record before its layout is read.
pub fn given_frame(s: &[u8]) -> FrameHeader
    ensures { result ≡ given_frame s.now }
{
    let at_frame = two_at(s, 0) + 2;
    let frame_type = frame_type_of(byte_at(s, at_frame));
    frame_of(
        frame_type,
        two_at(s, at_frame + 1) + 1,
        two_at(s, at_frame + 3) + 1,
    )
}

fn is_request(s: &[u8]) -> bool
    ensures { result ≡ is_frame_request s.now }
{
    let at_frame = two_at(s, 0) + 2;
    let kind = byte_at(s, at_frame);
    (is_input(s) & (at_frame + 5 <= s.len())) & (kind <= 3)
}

fn no_frame(answer: Answer) -> FrameRead
    ensures { result ≡ no_frame answer }
{
    let hdr = frame_of(FrameType::Key, 1, 1);
    FrameRead {
        answer,
        hdr,
        next: Place {
            byte: 0,
            used: 0,
            error: false,
        },
    }
}

// The request's sequence header.
fn request_header(s: &[u8]) -> SeqRead
    requires { is_frame_request s.now ≡ true }
    ensures { result ≡ request_header s.now }
{
    let start = Place {
        byte: 0,
        used: 0,
        error: false,
    };
    let at_frame = two_at(s, 0) + 2;
    parse_seq_hdr(&s[2..at_frame], start, false)
}

// The sequence's code, level and tier.
pub fn sequence_args(s: &[u8]) -> SequenceArgs
    ensures { result ≡ sequence_args s.now }
{
    if !is_request(s) {
        return SequenceArgs {
            seq_sb128: 0,
            level: 0,
            tier: 0,
        };
    }
    let q = request_header(s);
    SequenceArgs {
        seq_sb128: q.hdr.blocks.partition.sb128,
        level: q.hdr.level.level,
        tier: q.hdr.level.tier,
    }
}

pub fn frame_request(s: &[u8]) -> FrameRead
    ensures { result ≡ frame_request s.now }
{
    if !is_request(s) {
        return no_frame(Answer::WrongArguments);
    }
    let q = request_header(s);
    let answer = q.answer;
    if is_refusal(answer) {
        return no_frame(answer);
    }
    let start = Place {
        byte: 0,
        used: 0,
        error: false,
    };
    let seqhdr = q.hdr;
    let bits = two_at(s, 0) + 7;
    parse_tile_info_frmhdr(&s[bits..], start, given_frame(s), seqhdr)
}

#[tactic(auto, unfolding(crate::specs::Print::frame_read_text))]
pub fn put_frame_read<const N: usize>(out: &mut Text<N>, r: &FrameRead)
    ensures text { out.new ≡ put N out.old (frame_read_text r.now) }
    ensures size { length (frame_read_text r.now) ≤ 2969 }
{
    if is_refusal(r.answer) {
        put_refused(out, number(r.answer));
    } else {
        put_whole_layout(out, &r.hdr.tiling, r.next, r.hdr.sb128);
    }
}
