// Reads a layout's record, a request and tiling bits from standard input, and prints the whole layout that is read over that record.
#![tactic(auto)]

ghost use Rattle.std.specs.Prelude.{◌≡◌};
ghost use Rattle.over.specs.Print.{over_request, over_text};

use answers::{is_refusal, number};
use program::{byte_at, put_refused, read_full, report_written};
use std::io;
use text::Text;
use tile_layout::TileRead;
use tile_request::{given_layout, put_whole_layout, request_over};

// Where the record itself is cut short, nothing stands behind it.
fn over_request(s: &[u8]) -> TileRead
    ensures { result ≡ over_request s.now }
{
    let old = given_layout(s);
    if s.len() < 269 {
        return request_over(old, b"");
    }
    request_over(old, &s[269..])
}

// From the input's bytes to the output's.
#[tactic(auto, using(text::proofs::Puts::put_fits), unfolding(crate::specs::Print::over_text, getbits::specs::Chain::then))]
fn over_text(input: &[u8]) -> Text<2969>
    ensures { result ≡ over_text input.now }
{
    let r = over_request(input);
    let mut out = Text::new();
    if is_refusal(r.answer) {
        put_refused(&mut out, number(r.answer));
    } else {
        put_whole_layout(&mut out, &r.info, r.next, byte_at(input, 273));
    }
    out
}

fn main(rt: HostRuntime) -> io::Result<()> {
    let mut input = [0u8; 65806];
    let n = read_full(&mut rt.reader(), &mut input)?;
    let out = over_text(&input[..n]);
    report_written(&rt, rt.write_all(out.as_slice()).is_ok());
    Ok(())
}
