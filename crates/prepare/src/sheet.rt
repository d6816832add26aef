// The sheet's strips, their entries and their first buckets (document 01, "Then come the sheet's
// strips (20) and entries (21)"; document 02, W3).
ghost use Rattle.std.specs.Prelude.{◌≡◌, true, ℕ, ◌+◌, length, get_or};
ghost use Rattle.index.specs.Buckets.{buckets};
ghost use Rattle.filling.specs.Shapes.{set_bounds, set_strips};
ghost use Rattle.prepare.specs.sheet.inner.SheetRoom.{SheetIs};
ghost use Rattle.frames.specs.Frames.{framed};
ghost use Rattle.kinds.specs.sets.inner.Answers.{set_at};

use frames::Frame;
use index::{Bucket, Entry, Index, Overrun};
use shapes::set_strips;
use shapes::set_strips::Scratch;
use strips::Rect;

// The strips of the set at a bit position in the frame, their entries and their first buckets go into
// the rooms, and the buckets' starts into their table, which is zero. The sheet's bounds and how many
// strips it has; or the room that they overrun.
pub fn lay_sheet(
    bytes: &[u8],
    at: u32,
    sheet: &mut [f64],
    entries: &mut [Entry],
    starts: &mut [usize],
    firsts: &mut [Bucket],
    f: Frame,
) -> Result<(Rect, usize), Overrun>
    requires { (length starts.old ≡ buckets + 1) × ((b : ℕ) → get_or starts.old b 0 ≡ 0) }
    ensures { SheetIs result (set_bounds (framed f (set_at bytes.now at))) (set_strips true (framed f (set_at bytes.now at)))
        sheet.old sheet.new entries.old entries.new starts.new
        firsts.old firsts.new }
{
    let mut scratch = Scratch::new();
    let mut gains = [0usize; 512];
    let n = set_strips::set_strips(bytes, at, true, &mut scratch, sheet, 0, f).ok_or(
        Overrun::StripRoom,
    )?;
    if index::standing_capacity(sheet, firsts) < n {
        return Err(Overrun::StripRoom);
    }
    let bounds = set_strips::set_bounds(bytes, at, &mut scratch, f);
    let ix = Index::new(bounds.left, bounds.right);
    let end = 6 * n;
    if !enter::enter_copy(ix, &sheet[..end], 0, n, entries, starts, &mut gains, firsts) {
        return Err(Overrun::EntryRoom);
    }
    Ok((bounds, n))
}
