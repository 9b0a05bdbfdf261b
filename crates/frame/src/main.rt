// Reads a sequence header, a frame's type and size and tiling bits from standard input, and prints the frame's layout.
#![tactic(auto)]

ghost use Rattle.std.specs.Prelude.{◌≡◌};
ghost use Rattle.frame.specs.Print.{frame_text};

use frame_request::{frame_request, put_frame_read};
use program::{read_full, report_written};
use std::io;
use text::Text;

// From the input's bytes to the output's.
#[tactic(auto, using(text::proofs::Puts::put_fits), unfolding(crate::specs::Print::frame_text))]
fn frame_text(input: &[u8]) -> Text<2969>
    ensures { result ≡ frame_text input.now }
{
    let mut out = Text::new();
    put_frame_read(&mut out, &frame_request(input));
    out
}

fn main(rt: HostRuntime) -> io::Result<()> {
    let mut input = [0u8; 65537];
    let n = read_full(&mut rt.reader(), &mut input)?;
    let out = frame_text(&input[..n]);
    report_written(&rt, rt.write_all(out.as_slice()).is_ok());
    Ok(())
}
