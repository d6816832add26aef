// One look (document 01, "Filling"): inset strips against the sheet's strips, apart strips against
// the strips of the placed copies.
#![tactic(auto)]

pub mod height;

ghost use Rattle.std.specs.Prelude.{◌≡◌, ◌/◌, length};
ghost use Rattle.trapezoid.specs.Strip.{capacity};
ghost use Rattle.index.specs.inner.Listing.{FirstBuckets};
ghost use Rattle.look.specs.inner.Ready.{Lookable, look_of};

use crate::height::Look;
use index::{Bucket, Entry, Index, Overrun};

// The look at x, with heights from y_low to y_high; or that its counted intervals exceed the room,
// whose contents are used up.
// Only crates of ours call it: the entries and the kept buckets must be those of the strips.
pub fn look_at(
    ix: Index,
    x: f64,
    y_low: f64,
    y_high: f64,
    inset: &[f64],
    apart: &[f64],
    sheet: &[f64],
    sheet_entries: &[Entry],
    sheet_starts: &[usize],
    placed: &[f64],
    placed_entries: &[Entry],
    placed_starts: &[usize],
    room: &mut [f64],
    sheet_firsts: &[Bucket],
    placed_firsts: &[Bucket],
) -> Result<Look, Overrun>
    requires { Lookable ix x y_low y_high inset.now apart.now sheet.now placed.now sheet_entries.now sheet_starts.now
        placed_entries.now placed_starts.now × FirstBuckets ix sheet.now (capacity sheet.now) sheet_firsts.now
        × FirstBuckets ix placed.now (capacity placed.now) placed_firsts.now }
    ensures { result ≡ look_of (length room.old / 2) x y_low y_high inset.now apart.now sheet.now
        placed.now }
{
    let m = ix.forbidden(
        inset,
        x,
        y_low,
        y_high,
        sheet,
        sheet_entries,
        sheet_starts,
        room,
        0,
        sheet_firsts,
    );
    let n = ix.forbidden(
        apart,
        x,
        y_low,
        y_high,
        placed,
        placed_entries,
        placed_starts,
        room,
        m,
        placed_firsts,
    );
    if room.len() / 2 < n {
        return Err(Overrun::IntervalRoom);
    }
    Ok(height::height(room, n, y_low, y_high))
}
