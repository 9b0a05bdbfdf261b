// Reads a byte, 0 or 1, and the input of tile or of frame from standard input, and prints the layout if a handheld panel can show it.
#![tactic(auto)]

ghost use Rattle.std.specs.Prelude.{◌≡◌, ◌≤◌, length};
ghost use Rattle.text.specs.Text.{put};
ghost use Rattle.frame_request.specs.Print.{frame_read_text};
ghost use Rattle.program.specs.Output.{chosen_text};
ghost use Rattle.tile_request.specs.Print.{tile_read_text};
ghost use Rattle.panel.specs.Print.{panel_tiles, panel_frame, panel_text};

use frame_layout::FrameRead;
use frame_request::{frame_request, given_frame, put_frame_read};
use program::{put_refused, read_full, report_written};
use std::io;
use text::Text;
use tile_layout::{TileRead, no_tile_info};
use tile_limit::{TileLimit, frame_within, tiles_within};
use tile_request::{put_tile_read, tile_request};

fn panel_tiles(s: &[u8]) -> TileRead
    ensures { result ≡ panel_tiles s.now }
{
    tiles_within(TileLimit::panel(), no_tile_info(), tile_request(s))
}

fn panel_frame(s: &[u8]) -> FrameRead
    ensures { result ≡ panel_frame s.now }
{
    frame_within(TileLimit::panel(), given_frame(s), frame_request(s))
}

// What is printed of the bytes s behind the first byte.
#[tactic(auto, unfolding(program::specs::Output::chosen_text))]
fn put_rest<const N: usize>(out: &mut Text<N>, first: u8, s: &[u8])
    ensures text { out.new ≡ put N out.old (chosen_text first (tile_read_text (panel_tiles s.now)) (frame_read_text (panel_frame s.now))) }
    ensures size { length (chosen_text first (tile_read_text (panel_tiles s.now)) (frame_read_text (panel_frame s.now))) ≤ 10843 }
{
    match first {
        0 => put_tile_read(out, &panel_tiles(s)),
        1 => put_frame_read(out, &panel_frame(s)),
        _ => put_refused(out, 4),
    }
}

// From the input's bytes to the output's.
#[tactic(auto, using(text::proofs::Puts::put_fits, std::proofs::lemmas::Grind::common_steps), unfolding(crate::specs::Print::panel_text, program::specs::Output::either_text))]
fn panel_text(input: &[u8]) -> Text<10843>
    ensures { result ≡ panel_text input.now }
{
    let mut out = Text::new();
    match input {
        [first, rest @ ..] => put_rest(&mut out, *first, rest),
        [] => put_refused(&mut out, 4),
    }
    out
}

fn main(rt: HostRuntime) -> io::Result<()> {
    let mut input = [0u8; 65538];
    let n = read_full(&mut rt.reader(), &mut input)?;
    let out = panel_text(&input[..n]);
    report_written(&rt, rt.write_all(out.as_slice()).is_ok());
    Ok(())
}
