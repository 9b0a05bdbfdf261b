// The records of a frame's layout.
#![tactic(auto)]

ghost use Rattle.std.specs.Prelude.{◌≡◌};
ghost use Rattle.frame_layout.specs.Frame.{frame_type_of, present_of, frame_tiles};

use answers::Answer;
use getbits::Place;
use seq_fields::AdaptiveBoolean;
use tile_layout::{TileInfo, TileRead};

#[derive(Clone, Copy, PartialEq, Eq)]
pub enum FrameType {
    Key,
    Inter,
    Intra,
    Switch,
}

// What a frame's header has of its size and its layout.
#[derive(Clone, Copy)]
pub struct FrameHeader {
    pub frame_type: FrameType,
    pub width: i32,
    pub height: i32,
    pub sb128: u8,
    pub tiling: TileInfo,
}

// What a frame's layout needs of the sequence header.
#[derive(Clone, Copy)]
pub struct SeqLayout {
    pub sb128: u8,
    pub max_width: i32,
    pub max_height: i32,
    pub level: u8,
    pub tier: u8,
    pub present: AdaptiveBoolean,
    pub t: TileInfo,
}

// The answer, the frame's header with it and the place after the reading. A refusal has the header that was given.
#[derive(Clone, Copy)]
pub struct FrameRead {
    pub answer: Answer,
    pub hdr: FrameHeader,
    pub next: Place,
}

// The layout in a frame's answer.
pub fn frame_tiles(r: FrameRead) -> TileRead
    ensures { result ≡ frame_tiles r }
{
    let info = r.hdr.tiling;
    TileRead {
        answer: r.answer,
        info,
        next: r.next,
    }
}

// The type with a number.
pub fn frame_type_of(n: u8) -> FrameType
    ensures { result ≡ frame_type_of n }
{
    match n {
        0 => FrameType::Key,
        1 => FrameType::Inter,
        2 => FrameType::Intra,
        _ => FrameType::Switch,
    }
}

// The presence with a number.
pub fn present_of(n: u8) -> AdaptiveBoolean
    ensures { result ≡ present_of n }
{
    match n {
        0 => AdaptiveBoolean::Off,
        1 => AdaptiveBoolean::On,
        _ => AdaptiveBoolean::Adaptive,
    }
}
