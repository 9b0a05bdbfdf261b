// The reader as a struct. An operation calls a function by value at the reader's place, and moves the reader on to the next place.
#![tactic(auto)]

ghost use Rattle.std.specs.Prelude.{◌≡◌, drop};
ghost use Rattle.getbits.specs.Bits.{get_bit, get_bits, byte_pos, byte_align};
ghost use Rattle.codes.specs.Codes.{get_vlc, get_uniform};
ghost use Rattle.seq_hdr.specs.Header.{parse_seq_hdr};
ghost use Rattle.seq_hdr.specs.HeaderLayout.{HeaderLayout};
ghost use Rattle.frame_layout.specs.Frame.{parse_tile_info_frmhdr, FrameLayout};
ghost use Rattle.frame_layout.specs.Sequence.{seq_layout};
ghost use Rattle.tile_limit.specs.Promises.{LimitedFrame};
ghost use Rattle.tile_limit.specs.Within.{parse_tile_info_frmhdr_within};
ghost use Rattle.reader.specs.Held.{start, reader_at, held, held_seq, held_frame, seq_read_of, frame_read_of};

use answers::Answer;
use frame_layout::{FrameHeader, FrameRead};
use getbits::{Place, Read};
use seq_hdr::SeqRead;
use seq_record::SequenceHeader;
use tile_limit::TileLimit;

// The reader holds the lent bytes together with its place in them. A copy reads on by itself.
#[derive(Clone, Copy)]
pub struct GetBits<'a> {
    pub data: &'a [u8],
    pub at: Place,
}

// A header's answer, and the header.
#[derive(Clone, Copy)]
pub struct Answered<T> {
    pub answer: Answer,
    pub hdr: T,
}

impl<'a> GetBits<'a> {
    pub fn new(data: &'a [u8]) -> GetBits<'a>
        ensures { result ≡ reader_at «data».entry start }
    {
        GetBits {
            data,
            at: Place {
                byte: 0,
                used: 0,
                error: false,
            },
        }
    }

    // At a place, which is kept as it is given: one past the last bit, or with more than 7 bits used, counts as the end,
    // and the first operation moves the reader to the end.
    pub fn at_place(data: &'a [u8], at: Place) -> GetBits<'a>
        ensures { result ≡ reader_at «data».entry at }
    {
        GetBits { data, at }
    }

    // The place as at_place was given it, or where the last operation left the reader.
    pub fn place(&self) -> Place
        ensures { result ≡ self.now.at }
    {
        self.at
    }

    pub fn has_error(&self) -> bool
        ensures { result ≡ self.now.at.error }
    {
        self.at.error
    }

    pub fn remaining_slice(&self) -> &'a [u8]
        ensures { result.now ≡ drop (byte_pos self.now.«data».now self.now.at) self.now.«data».now }
    {
        getbits::remaining_slice(self.data, self.at)
    }

    pub fn get_bit(&mut self) -> u32
        ensures { (result, self.new) ≡ held self.old (get_bit self.old.«data».now self.old.at) }
    {
        self.move_past(getbits::get_bit(self.data, self.at))
    }

    pub fn get_bits(&mut self, n: i32) -> u32
        ensures { (result, self.new) ≡ held self.old (get_bits self.old.«data».now self.old.at n) }
    {
        self.move_past(getbits::get_bits(self.data, self.at, n))
    }

    pub fn get_vlc(&mut self) -> u32
        ensures { (result, self.new) ≡ held self.old (get_vlc self.old.«data».now self.old.at) }
    {
        self.move_past(codes::get_vlc(self.data, self.at))
    }

    pub fn get_uniform(&mut self, max: u32) -> u32
        ensures { (result, self.new) ≡ held self.old (get_uniform self.old.«data».now self.old.at max) }
    {
        self.move_past(codes::get_uniform(self.data, self.at, max))
    }

    pub fn bytealign(&mut self)
        ensures { self.new ≡ reader_at self.old.«data» (byte_align self.old.«data».now self.old.at) }
    {
        self.at = getbits::bytealign(self.data, self.at);
    }

    pub fn parse_seq_hdr(&mut self, strict: bool) -> Answered<SequenceHeader>
        ensures value { (result, self.new) ≡ held_seq self.old (parse_seq_hdr self.old.«data».now self.old.at strict) }
        ensures header_layout { HeaderLayout self.old.«data».now self.old.at (seq_read_of result self.new) }
    {
        let header = seq_hdr::parse_seq_hdr(self.data, self.at, strict);
        self.at = header.next;
        Answered {
            answer: header.answer,
            hdr: header.hdr,
        }
    }

    pub fn parse_tile_info_frmhdr(
        &mut self,
        hdr: FrameHeader,
        seqhdr: SequenceHeader,
    ) -> Answered<FrameHeader>
        ensures value { (result, self.new) ≡ held_frame self.old (parse_tile_info_frmhdr self.old.«data».now self.old.at hdr (seq_layout seqhdr)) }
        ensures frame_layout { FrameLayout self.old.«data».now self.old.at hdr (seq_layout seqhdr) (frame_read_of result self.new) }
    {
        self.move_past_frame(frame_hdr::parse_tile_info_frmhdr(self.data, self.at, hdr, seqhdr))
    }

    pub fn parse_tile_info_frmhdr_within(
        &mut self,
        hdr: FrameHeader,
        seqhdr: SequenceHeader,
        limit: TileLimit,
    ) -> Answered<FrameHeader>
        ensures value { (result, self.new) ≡ held_frame self.old (parse_tile_info_frmhdr_within self.old.«data».now self.old.at hdr (seq_layout seqhdr) limit) }
        ensures limited_frame { LimitedFrame self.old.«data».now self.old.at hdr (seq_layout seqhdr) limit (frame_read_of result self.new) }
    {
        self.move_past_frame(tile_limit::parse_tile_info_frmhdr_within(
            self.data, self.at, hdr, seqhdr, limit,
        ))
    }

    // Hands out a number that was read, and goes on to the place after it.
    fn move_past(&mut self, number: Read<u32>) -> u32
        ensures { (result, self.new) ≡ held self.old number }
    {
        self.at = number.next;
        number.value
    }

    // The same of a frame's header.
    fn move_past_frame(&mut self, frame: FrameRead) -> Answered<FrameHeader>
        ensures { (result, self.new) ≡ held_frame self.old frame }
    {
        self.at = frame.next;
        Answered {
            answer: frame.answer,
            hdr: frame.hdr,
        }
    }
}

// The sequence header at the start of the bytes, and the place after it.
pub fn read_seq_hdr(data: &[u8], strict: bool) -> SeqRead
    ensures value { result ≡ parse_seq_hdr «data».now start strict }
    ensures header_layout { HeaderLayout «data».now start result }
{
    let mut reader = GetBits::new(data);
    let header = reader.parse_seq_hdr(strict);
    SeqRead {
        answer: header.answer,
        hdr: header.hdr,
        next: reader.at,
    }
}
