// The same over a lent buffer: what does not fit is dropped, and the function answers the place behind what it put.
ghost use Rattle.frame_request.specs.Print.{frame_read_text};
ghost use Rattle.text.specs.Put.{Put};

use frame_layout::FrameRead;
use text::Text;
use text::slices::put_word;

pub fn put_frame_read(out: &mut [u8], r: FrameRead) -> usize
    ensures { Put 2969 out.old 0 (frame_read_text r) out.new result }
{
    let mut text: Text<2969> = Text::new();
    crate::put_frame_read(&mut text, &r);
    put_word(out, 0, text.as_slice())
}
