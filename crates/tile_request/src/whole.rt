// The lines that are printed of a whole layout.
ghost use Rattle.std.specs.Prelude.{◌≡◌, ◌≤◌, length};
ghost use Rattle.text.specs.Text.{put};
ghost use Rattle.tile_request.specs.Whole.{whole_head_text, logs_text};

use getbits::Place;
use lent::position_of;
use program::put_accepted;
use text::Text;
use tile_layout::TileInfo;

#[tactic(auto, unfolding(crate::specs::Whole::whole_head_text))]
pub fn put_whole_head<const N: usize>(out: &mut Text<N>, t: &TileInfo, next: Place, sb128: u8)
    ensures text { out.new ≡ put N out.old (whole_head_text t.now next sb128) }
    ensures size { length (whole_head_text t.now next sb128) ≤ 110 }
{
    let xs = [
        u64::from(t.cols),
        u64::from(t.rows),
        position_of(next) as u64,
        u64::from(next.error),
        u64::from(sb128),
    ];
    put_accepted(out, t.uniform, &xs);
}

#[tactic(auto, unfolding(crate::specs::Whole::logs_text))]
pub fn put_logs<const N: usize>(out: &mut Text<N>, t: &TileInfo)
    ensures text { out.new ≡ put N out.old (logs_text t.now) }
    ensures size { length (logs_text t.now) ≤ 127 }
{
    let logs = [
        u16::from(t.min_log2_cols),
        u16::from(t.max_log2_cols),
        u16::from(t.log2_cols),
        u16::from(t.min_log2_rows),
        u16::from(t.max_log2_rows),
        u16::from(t.log2_rows),
    ];
    out.push_row(&logs, logs.len());
}
