// What refusal 31 (document 01) asks of the rooms: strips, their first buckets and entries, and the
// shapes. Only crates of ours call them.
ghost use Rattle.std.specs.Prelude.{◌≡◌, true, ℕ, ◌+◌, ◌*◌, ◌≤◌, ◌<◌, length, get_or, take};
ghost use Rattle.trapezoid.specs.Strip.{capacity};
ghost use Rattle.index.specs.Buckets.{buckets, entries_of, firsts_of};
ghost use Rattle.index.specs.inner.Listing.{Laid, FirstBuckets};
ghost use Rattle.filling.specs.Consistent.{numbers_lie, sheet_index};
ghost use Rattle.consistent.specs.slot_tests.inner.Slots.{Given, slots_test};
ghost use Rattle.consistent.specs.inner.Tests.{slots_of, counts_test, strip_room_test, standing_test, rooms_test};

use crate::{slot_tests, strip_tests};
use index::{Bucket, Entry, Index};
use strips::Rect;

// Strips lie within their rooms.
#[tactic(auto, unfolding(crate::specs::inner::Tests::counts_test))]
fn strip_counts_fit(
    sheet_strips: usize,
    apart_strips: usize,
    placed_strips: usize,
    sheet: &[f64],
    shapes: &[f64],
    placed: &[f64],
    sheet_firsts: &[Bucket],
    placed_firsts: &[Bucket],
) -> bool
    ensures { (result ≡ counts_test sheet_strips apart_strips placed_strips sheet.now shapes.now placed.now
        sheet_firsts.now placed_firsts.now)
        × (result ≡ true → (6 * sheet_strips ≤ length sheet.now) × (6 * apart_strips ≤ length shapes.now)
        × (6 * placed_strips ≤ length placed.now)) }
{
    sheet_strips <= index::standing_capacity(sheet, sheet_firsts)
        && apart_strips <= trapezoid::capacity(shapes)
        && placed_strips <= index::standing_capacity(placed, placed_firsts)
}

// The room begins with the strips' first buckets (document 02, W3).
fn firsts_lie(ix: Index, part: &[f64], firsts: &[Bucket]) -> bool
    ensures { (result ≡ numbers_lie (firsts_of ix part.now (capacity part.now)) firsts.now)
        × (result ≡ true → FirstBuckets ix part.now (capacity part.now) firsts.now) }
{
    let n = trapezoid::capacity(part);
    n <= firsts.len()
        && (0..n).all(|i| ix.bucket(trapezoid::load(part, i).x0) == index::entry(firsts, i))
}

// The room begins with the entries of the strips; if so, starts has where each bucket's begin.
fn entries_lie(
    ix: Index,
    part: &[f64],
    entries: &[Entry],
    starts: &mut [usize],
    firsts: &[Bucket],
) -> bool
    requires { (length starts.old ≡ buckets + 1) × FirstBuckets ix part.now (capacity part.now) firsts.now }
    ensures { (result ≡ numbers_lie (entries_of ix part.now (capacity part.now)) entries.now)
        × (result ≡ true → Laid ix part.now (capacity part.now) entries.now starts.new) }
{
    let n = trapezoid::capacity(part);
    index::entries::walk_all(ix, part, n, entries, starts, firsts).is_some()
}

// The strips of a part, their first buckets and their entries.
#[tactic(auto, unfolding(crate::specs::inner::Tests::strip_room_test))]
fn strip_room_fits(
    bounds: Rect,
    part: &[f64],
    entries: &[Entry],
    starts: &mut [usize],
    firsts: &[Bucket],
) -> bool
    requires { length starts.old ≡ buckets + 1 }
    ensures { (result ≡ strip_room_test bounds part.now entries.now firsts.now)
        × (result ≡ true → Laid (sheet_index bounds) part.now (capacity part.now) entries.now starts.new
        × FirstBuckets (sheet_index bounds) part.now (capacity part.now) firsts.now) }
{
    let ix = Index::new(bounds.left, bounds.right);
    strip_tests::strips_fit(part)
        && firsts_lie(ix, part, firsts)
        && entries_lie(ix, part, entries, starts, firsts)
}

// The strips of the sheet and of the placed copies.
#[tactic(auto, unfolding(crate::specs::inner::Tests::standing_test))]
fn standing_fit(
    bounds: Rect,
    sheet: &[f64],
    placed: &[f64],
    sheet_entries: &[Entry],
    placed_entries: &[Entry],
    sheet_starts: &mut [usize],
    placed_starts: &mut [usize],
    sheet_firsts: &[Bucket],
    placed_firsts: &[Bucket],
) -> bool
    requires { (length sheet_starts.old ≡ buckets + 1) × (length placed_starts.old ≡ buckets + 1) }
    ensures { (result ≡ standing_test bounds sheet.now placed.now sheet_entries.now placed_entries.now
        sheet_firsts.now placed_firsts.now)
        × (result ≡ true → Laid (sheet_index bounds) sheet.now (capacity sheet.now) sheet_entries.now sheet_starts.new
        × Laid (sheet_index bounds) placed.now (capacity placed.now) placed_entries.now placed_starts.new
        × FirstBuckets (sheet_index bounds) sheet.now (capacity sheet.now) sheet_firsts.now
        × FirstBuckets (sheet_index bounds) placed.now (capacity placed.now) placed_firsts.now) }
{
    strip_room_fits(bounds, sheet, sheet_entries, sheet_starts, sheet_firsts)
        && strip_room_fits(bounds, placed, placed_entries, placed_starts, placed_firsts)
}

// Parts, shapes and tracks of every orientation.
fn shapes_fit<'a>(
    taken: usize,
    resolution: f64,
    bounds: Rect,
    apart_strips: usize,
    inset_bounds: &[f64],
    parts: &[usize],
    next_column: &[usize],
    look_counts: &[usize],
    rows: &[u64],
    kinds: usize,
    shapes: &'a [f64],
) -> bool
    requires { Given (slots_of bounds resolution taken inset_bounds.now parts.now shapes.now apart_strips next_column.now look_counts.now)
        × (6 * apart_strips ≤ length shapes.now) × (kinds ≤ 64) × (256 ≤ length rows.now) × ((k : ℕ) → k < kinds → get_or rows.now (4 * k + 3) 0 ≤ 16) }
    ensures { result ≡ slots_test (slots_of bounds resolution taken inset_bounds.now parts.now shapes.now apart_strips
        next_column.now look_counts.now) rows.now kinds }
{
    let end = 6 * apart_strips;
    slot_tests::slots_fit(
        bounds,
        resolution,
        taken,
        rows,
        kinds,
        inset_bounds,
        parts,
        &shapes[..end],
        &shapes[end..],
        next_column,
        look_counts,
    )
}

// What is tested with the rooms.
#[tactic(auto, unfolding(crate::specs::inner::Tests::rooms_test))]
pub fn rooms_fit(
    taken: usize,
    placed_strips: usize,
    resolution: f64,
    bounds: Rect,
    sheet_strips: usize,
    apart_strips: usize,
    inset_bounds: &[f64],
    parts: &[usize],
    next_column: &[usize],
    look_counts: &[usize],
    rows: &[u64],
    kinds: usize,
    shapes: &[f64],
    sheet: &[f64],
    placed: &[f64],
    sheet_entries: &[Entry],
    placed_entries: &[Entry],
    sheet_starts: &mut [usize],
    placed_starts: &mut [usize],
    sheet_firsts: &[Bucket],
    placed_firsts: &[Bucket],
) -> bool
    requires { Given (slots_of bounds resolution taken inset_bounds.now parts.now shapes.now apart_strips next_column.now look_counts.now)
        × (kinds ≤ 64) × (256 ≤ length rows.now) × ((k : ℕ) → k < kinds → get_or rows.now (4 * k + 3) 0 ≤ 16) × (length sheet_starts.old ≡ buckets + 1)
        × (length placed_starts.old ≡ buckets + 1) }
    ensures { (result ≡ rooms_test (slots_of bounds resolution taken inset_bounds.now parts.now shapes.now apart_strips
        next_column.now look_counts.now) rows.now kinds (counts_test sheet_strips apart_strips placed_strips
        sheet.now shapes.now placed.now sheet_firsts.now placed_firsts.now)
        (standing_test bounds (take (6 * sheet_strips) sheet.now) (take (6 * placed_strips) placed.now)
        sheet_entries.now placed_entries.now sheet_firsts.now placed_firsts.now))
        × (result ≡ true → Laid (sheet_index bounds) (take (6 * sheet_strips) sheet.now) (capacity (take (6 * sheet_strips) sheet.now))
        sheet_entries.now sheet_starts.new × Laid (sheet_index bounds) (take (6 * placed_strips) placed.now)
        (capacity (take (6 * placed_strips) placed.now)) placed_entries.now placed_starts.new
        × FirstBuckets (sheet_index bounds) (take (6 * sheet_strips) sheet.now) (capacity (take (6 * sheet_strips) sheet.now))
        sheet_firsts.now × FirstBuckets (sheet_index bounds) (take (6 * placed_strips) placed.now)
        (capacity (take (6 * placed_strips) placed.now)) placed_firsts.now) }
{
    strip_counts_fit(
        sheet_strips,
        apart_strips,
        placed_strips,
        sheet,
        shapes,
        placed,
        sheet_firsts,
        placed_firsts,
    ) && shapes_fit(
        taken,
        resolution,
        bounds,
        apart_strips,
        inset_bounds,
        parts,
        next_column,
        look_counts,
        rows,
        kinds,
        shapes,
    ) && standing_fit(
        bounds,
        &sheet[..6 * sheet_strips],
        &placed[..6 * placed_strips],
        sheet_entries,
        placed_entries,
        sheet_starts,
        placed_starts,
        sheet_firsts,
        placed_firsts,
    )
}
