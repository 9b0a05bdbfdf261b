// Reads a request and tiling bits from standard input, and prints the layout.
#![tactic(auto)]

ghost use Rattle.std.specs.Prelude.{◌≡◌};
ghost use Rattle.tile.specs.Print.{tile_text};

use program::{read_full, report_written};
use std::io;
use text::Text;
use tile_request::{put_tile_read, tile_request};

// From the input's bytes to the output's.
#[tactic(auto, using(text::proofs::Puts::put_fits), unfolding(crate::specs::Print::tile_text))]
fn tile_text(input: &[u8]) -> Text<10843>
    ensures { result ≡ tile_text input.now }
{
    let mut out = Text::new();
    put_tile_read(&mut out, &tile_request(input));
    out
}

fn main(rt: HostRuntime) -> io::Result<()> {
    let mut input = [0u8; 65537];
    let n = read_full(&mut rt.reader(), &mut input)?;
    let out = tile_text(&input[..n]);
    report_written(&rt, rt.write_all(out.as_slice()).is_ok());
    Ok(())
}
