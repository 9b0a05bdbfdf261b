// Layouts for a viewer that can show only so many columns and rows.
#![tactic(auto)]

ghost use Rattle.std.specs.Prelude.{◌≡◌};
ghost use Rattle.tile_layout.specs.Limits.{args_of};
ghost use Rattle.frame_layout.specs.Sequence.{seq_layout};
ghost use Rattle.tile_limit.specs.Promises.{LimitedTiles, LimitedFrame};
ghost use Rattle.tile_limit.specs.Within.{wall, panel, is_over, is_too_many, tiles_within, frame_within, parse_tile_info_within, parse_tile_info_frmhdr_within};

use answers::{Answer, is_refusal};
use frame_hdr::{frame_layout, parse_tile_info_frmhdr};
use frame_layout::{FrameHeader, FrameRead, SeqLayout, frame_tiles};
use getbits::Place;
use seq_record::SequenceHeader;
use tile_info::parse_tile_info;
use tile_layout::{TileInfo, TileRead};

// The most columns and rows that a viewer can show.
#[derive(Clone, Copy)]
pub struct TileLimit {
    pub cols: u8,
    pub rows: u8,
}

impl TileLimit {
    pub fn wall() -> TileLimit
        ensures { result ≡ wall }
    {
        TileLimit { cols: 64, rows: 64 }
    }

    pub fn panel() -> TileLimit
        ensures { result ≡ panel }
    {
        TileLimit { cols: 16, rows: 8 }
    }
}

// Has a layout more columns or more rows than the limit?
fn is_over(limit: TileLimit, t: TileInfo) -> bool
    ensures { result ≡ is_over limit t }
{
    (limit.cols < t.cols) | (limit.rows < t.rows)
}

// Is a reading accepted, with too many?
fn is_too_many(limit: TileLimit, r: TileRead) -> bool
    ensures { result ≡ is_too_many limit r }
{
    let answer = r.answer;
    let info = r.info;
    !is_refusal(answer) & is_over(limit, info)
}

// A reading of the wall's, within the limit. A refusal hands back the layout given.
pub fn tiles_within(limit: TileLimit, thdr: TileInfo, r: TileRead) -> TileRead
    ensures { result ≡ tiles_within limit thdr r }
{
    if is_too_many(limit, r) {
        return TileRead {
            answer: Answer::TooManyTiles,
            info: thdr,
            next: r.next,
        };
    }
    r
}

// A frame's likewise, for a layout that was read and for one that was reused.
pub fn frame_within(limit: TileLimit, hdr: FrameHeader, r: FrameRead) -> FrameRead
    ensures { result ≡ frame_within limit hdr r }
{
    if is_too_many(limit, frame_tiles(r)) {
        return FrameRead {
            answer: Answer::TooManyTiles,
            hdr,
            next: r.next,
        };
    }
    r
}

pub fn parse_tile_info_within(
    s: &[u8],
    p: Place,
    thdr: TileInfo,
    sbmul: i32,
    sb128: u8,
    seq_sb128: u8,
    w: i32,
    h: i32,
    level: u8,
    tier: u8,
    limit: TileLimit,
) -> TileRead
    ensures value { result ≡ parse_tile_info_within s.now p thdr (args_of sbmul sb128 seq_sb128 w h level tier) limit }
    ensures limited_tiles { LimitedTiles s.now p thdr (args_of sbmul sb128 seq_sb128 w h level tier) limit result }
{
    let r = parse_tile_info(s, p, thdr, sbmul, sb128, seq_sb128, w, h, level, tier);
    tiles_within(limit, thdr, r)
}

// parse_tile_info_frmhdr_within over the few fields of the sequence header that it needs.
pub fn frame_layout_within(
    s: &[u8],
    p: Place,
    hdr: FrameHeader,
    seq: SeqLayout,
    limit: TileLimit,
) -> FrameRead
    ensures value { result ≡ parse_tile_info_frmhdr_within s.now p hdr seq limit }
    ensures limited_frame { LimitedFrame s.now p hdr seq limit result }
{
    frame_within(limit, hdr, frame_layout(s, p, hdr, seq))
}

pub fn parse_tile_info_frmhdr_within(
    s: &[u8],
    p: Place,
    hdr: FrameHeader,
    seqhdr: SequenceHeader,
    limit: TileLimit,
) -> FrameRead
    ensures value { result ≡ parse_tile_info_frmhdr_within s.now p hdr (seq_layout seqhdr) limit }
    ensures limited_frame { LimitedFrame s.now p hdr (seq_layout seqhdr) limit result }
{
    frame_within(limit, hdr, parse_tile_info_frmhdr(s, p, hdr, seqhdr))
}
