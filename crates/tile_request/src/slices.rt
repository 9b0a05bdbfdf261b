// The same over a lent buffer: what does not fit is dropped, and each function answers the place behind what it put.
ghost use Rattle.text.specs.Put.{Put};
ghost use Rattle.tile_request.specs.Print.{tile_read_text};
ghost use Rattle.tile_request.specs.Whole.{whole_layout_text};

use getbits::Place;
use text::Text;
use text::slices::put_word;
use tile_layout::{TileInfo, TileRead};

pub fn put_tile_read(out: &mut [u8], r: TileRead) -> usize
    ensures { Put 10843 out.old 0 (tile_read_text r) out.new result }
{
    let mut text: Text<10843> = Text::new();
    crate::put_tile_read(&mut text, &r);
    put_word(out, 0, text.as_slice())
}

// A layout with all its starts and its logarithms.
pub fn put_whole_layout(out: &mut [u8], t: TileInfo, next: Place, sb128: u8) -> usize
    ensures { Put 2969 out.old 0 (whole_layout_text t next sb128) out.new result }
{
    let mut text: Text<2969> = Text::new();
    crate::put_whole_layout(&mut text, &t, next, sb128);
    put_word(out, 0, text.as_slice())
}
