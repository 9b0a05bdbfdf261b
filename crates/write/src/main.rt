// Reads a frame's size, codes, level and tier, a layout's record and the size of a buffer, and prints the bits that the layout is read from, in bytes.
#![tactic(auto)]

ghost use Rattle.std.specs.Prelude.{◌≡◌, ◌+◌, ◌*◌, ◌/◌, ◌≤◌, length, take};
ghost use Rattle.text.specs.Text.{put, row};
ghost use Rattle.write.specs.Print.{bits_text, written_text, request_text, write_text};
ghost use Rattle.write.specs.Request.{write_request};

use answers::{is_refusal, number};
use layout_writing::Written;
use program::{put_refused, read_full, report_written, two_at};
use std::io;
use text::Text;
use tile_request::{given_layout, multiplier, samples};
use tile_write::write_tile_info;

// The first n bytes with one blank between.
#[tactic(auto, using(crate::proofs::Rows::rows), unfolding(text::specs::Text::row))]
fn put_bytes<const N: usize>(out: &mut Text<N>, bytes: &[u8], n: usize)
    requires { n ≤ length bytes.now }
    ensures text { out.new ≡ put N out.old (row (take n bytes.now)) }
    ensures size { length (row (take n bytes.now)) ≤ 21 * n }
{
    for i in 0..n {
        out.push_item(u64::from(bytes[i]), i == 0);
    }
}

// An accepted call: how many bits, and the bytes that they take.
#[tactic(auto, using(text::proofs::Puts::puts), unfolding(crate::specs::Print::bits_text, text::specs::Text::word))]
fn put_bits<const N: usize>(out: &mut Text<N>, bits: u32, bytes: &[u8])
    requires { ((bits + 7) / 8 ≤ 177) × ((bits + 7) / 8 ≤ length bytes.now) }
    ensures text { out.new ≡ put N out.old (bits_text bits bytes.now) }
    ensures size { length (bits_text bits bytes.now) ≤ 3742 }
{
    out.push_line(b"ok", &[u64::from(bits)]);
    put_bytes(out, bytes, ((bits + 7) / 8) as usize);
    out.push(b'\n');
}

// The call, with a lent buffer.
fn write_request(s: &[u8], buffer: &mut [u8]) -> Written
    requires { length s.now ≡ 279 }
    ensures { (result, buffer.new) ≡ write_request s.now buffer.old }
{
    let t = given_layout(&s[8..]);
    let sb128 = s[4];
    let seq_sb128 = s[5];
    let sbmul = multiplier(sb128, seq_sb128);
    let w = samples(s, 0);
    let h = samples(s, 2);
    write_tile_info(sbmul, sb128, seq_sb128, w, h, s[6], s[7], t, &mut *buffer)
}

// What is printed of the call.
#[tactic(auto, unfolding(crate::specs::Print::written_text))]
fn put_written<const N: usize>(out: &mut Text<N>, s: &[u8], buffer: &mut [u8])
    requires { length s.now ≡ 279 }
    ensures text { out.new ≡ put N out.old (written_text (write_request s.now buffer.old)) }
    ensures size { length (written_text (write_request s.now buffer.old)) ≤ 3742 }
{
    let r = write_request(s, &mut *buffer);
    if is_refusal(r.answer) {
        put_refused(out, number(r.answer));
    } else {
        put_bits(out, r.bits, &*buffer);
    }
}

// A buffer of zeros is lent, of the size that the input says.
#[tactic(auto, using(crate::proofs::Buffers::front), unfolding(crate::specs::Print::request_text))]
fn put_request<const N: usize>(out: &mut Text<N>, s: &[u8])
    requires { length s.now ≡ 279 }
    ensures text { out.new ≡ put N out.old (request_text s.now) }
    ensures size { length (request_text s.now) ≤ 3742 }
{
    let mut buffer = [0u8; 65535];
    let size = two_at(s, 277);
    put_written(out, s, &mut buffer[..size]);
}

// From the input's bytes to the output's.
#[tactic(auto, using(text::proofs::Puts::put_fits), unfolding(crate::specs::Print::write_text))]
fn write_text(input: &[u8]) -> Text<3742>
    ensures { result ≡ write_text input.now }
{
    let mut out = Text::new();
    if input.len() == 279 {
        put_request(&mut out, input);
    } else {
        put_refused(&mut out, 4);
    }
    out
}

fn main(rt: HostRuntime) -> io::Result<()> {
    let mut input = [0u8; 280];
    let n = read_full(&mut rt.reader(), &mut input)?;
    let out = write_text(&input[..n]);
    report_written(&rt, rt.write_all(out.as_slice()).is_ok());
    Ok(())
}
