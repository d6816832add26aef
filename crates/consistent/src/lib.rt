// Whether a single step's state and rooms agree (document 01, refusal 31): the definition's tests,
// one function each, those first on which the safety of others rests.
#![tactic(auto)]

pub mod agreed;
pub mod copy_tests;
pub mod room_tests;
pub mod slot_tests;
pub mod strip_tests;

ghost use Rattle.std.specs.Prelude.{◌≡◌, true, ◌&&◌, List, ℕ, ◌+◌, ◌*◌, ◌≤◌, ◌<◌, length, get_or, take, leb, Float};
ghost use Rattle.trapezoid.specs.Strip.{capacity};
ghost use Rattle.index.specs.Buckets.{buckets};
ghost use Rattle.index.specs.inner.Listing.{Laid, FirstBuckets};
ghost use Rattle.search.proofs.columns.Sizes.{BoundedRect, Resolving};
ghost use Rattle.job.specs.Jobs.{Job};
ghost use Rattle.filling.specs.Rooms.{rooms_of};
ghost use Rattle.filling.specs.Consistent.{sheet_index, consistent};
ghost use Rattle.accounts.specs.tables.inner.Tabled.{Tabled};
ghost use Rattle.consistent.specs.slot_tests.inner.Slots.{Given};
ghost use Rattle.consistent.specs.copy_tests.inner.Copies.{held, copies_test};
ghost use Rattle.consistent.specs.inner.Tests.{state_of, slots_of, state_test, counts_test, standing_test, rooms_test};

use index::{Bucket, Entry};
use strips::Rect;

// The copies taken: at most the job's.
fn taken_fits(taken: usize, copies: usize) -> bool
    ensures { result ≡ leb taken copies }
{
    taken <= copies
}

// The copies taken, resolution, sheet bounds, right and unplaced area.
#[tactic(auto, unfolding(crate::specs::inner::Tests::state_test))]
fn state_fits(
    taken: usize,
    copies: usize,
    right: f64,
    unplaced_area: f64,
    resolution: f64,
    bounds: Rect,
) -> bool
    ensures { (result ≡ state_test taken copies resolution bounds right unplaced_area)
        × (result ≡ true → (taken ≤ copies) × BoundedRect bounds × Resolving resolution) }
{
    taken_fits(taken, copies)
        && strip_tests::resolution_fits(resolution)
        && strip_tests::bounds_fit(bounds)
        && strip_tests::layout_fits(right, unplaced_area)
}

// What is tested with the rooms, and then that the placed strips are the standing copies'.
fn rooms_agree(
    taken: usize,
    placed_strips: usize,
    resolution: f64,
    bounds: Rect,
    sheet_strips: usize,
    apart_strips: usize,
    inset_bounds: &[f64],
    parts: &[usize],
    next_column: &[usize],
    look_counts: &[usize],
    rows: &[u64],
    kinds: usize,
    shapes: &[f64],
    sheet: &[f64],
    placed: &[f64],
    sheet_entries: &[Entry],
    placed_entries: &[Entry],
    sheet_starts: &mut [usize],
    placed_starts: &mut [usize],
    sheet_firsts: &[Bucket],
    placed_firsts: &[Bucket],
    order: &[usize],
    orientation: &[usize],
    x: &[f64],
    y: &[f64],
) -> bool
    requires { Given (slots_of bounds resolution taken inset_bounds.now parts.now shapes.now apart_strips next_column.now look_counts.now)
        × (kinds ≤ 64) × (256 ≤ length rows.now) × ((k : ℕ) → k < kinds → get_or rows.now (4 * k + 3) 0 ≤ 16) × (length sheet_starts.old ≡ buckets + 1)
        × (length placed_starts.old ≡ buckets + 1) × (taken ≤ length order.now) × (taken ≤ length orientation.now) × (taken ≤ length x.now)
        × (taken ≤ length y.now) }
    ensures { (result ≡ rooms_test (slots_of bounds resolution taken inset_bounds.now parts.now shapes.now apart_strips
        next_column.now look_counts.now) rows.now kinds (counts_test sheet_strips apart_strips placed_strips
        sheet.now shapes.now placed.now sheet_firsts.now placed_firsts.now)
        (standing_test bounds (take (6 * sheet_strips) sheet.now) (take (6 * placed_strips) placed.now)
        sheet_entries.now placed_entries.now sheet_firsts.now placed_firsts.now)
        && copies_test (held rows.now kinds parts.now (take (6 * apart_strips) shapes.now)
        (take (6 * placed_strips) placed.now)) order.now orientation.now x.now y.now taken 0 0)
        × (result ≡ true → Laid (sheet_index bounds) (take (6 * sheet_strips) sheet.now) (capacity (take (6 * sheet_strips) sheet.now))
        sheet_entries.now sheet_starts.new × Laid (sheet_index bounds) (take (6 * placed_strips) placed.now)
        (capacity (take (6 * placed_strips) placed.now)) placed_entries.now placed_starts.new
        × FirstBuckets (sheet_index bounds) (take (6 * sheet_strips) sheet.now) (capacity (take (6 * sheet_strips) sheet.now))
        sheet_firsts.now × FirstBuckets (sheet_index bounds) (take (6 * placed_strips) placed.now)
        (capacity (take (6 * placed_strips) placed.now)) placed_firsts.now) }
{
    room_tests::rooms_fit(
        taken,
        placed_strips,
        resolution,
        bounds,
        sheet_strips,
        apart_strips,
        inset_bounds,
        parts,
        next_column,
        look_counts,
        rows,
        kinds,
        shapes,
        sheet,
        placed,
        sheet_entries,
        placed_entries,
        sheet_starts,
        placed_starts,
        sheet_firsts,
        placed_firsts,
    ) && copy_tests::copies_fit(
        rows,
        kinds,
        order,
        orientation,
        x,
        y,
        taken,
        parts,
        &shapes[..6 * apart_strips],
        &placed[..6 * placed_strips],
    )
}

// Whether state and rooms agree; if so, the starts tables have where each bucket's entries begin.
// Only crates of ours call it: rows and kinds must be a job's, copies its copies, and the tables as
// long as a state has them.
pub fn consistent(
    taken: usize,
    placed_strips: usize,
    right: f64,
    unplaced_area: f64,
    resolution: f64,
    bounds: Rect,
    sheet_strips: usize,
    apart_strips: usize,
    inset_bounds: &[f64],
    parts: &[usize],
    order: &[usize],
    next_column: &[usize],
    look_counts: &[usize],
    rows: &[u64],
    kinds: usize,
    copies: usize,
    shapes: &[f64],
    sheet: &[f64],
    placed: &[f64],
    sheet_entries: &[Entry],
    placed_entries: &[Entry],
    sheet_starts: &mut [usize],
    placed_starts: &mut [usize],
    sheet_firsts: &[Bucket],
    placed_firsts: &[Bucket],
    orientation: &[usize],
    gap: &[f64],
    x: &[f64],
    y: &[f64],
) -> bool
    requires { (kinds ≤ 64) × (256 ≤ length rows.now) × ((k : ℕ) → k < kinds → get_or rows.now (4 * k + 3) 0 ≤ 16) × (copies ≤ 4096)
        × (4096 ≤ length order.now) × (4096 ≤ length inset_bounds.now) × (4096 ≤ length parts.now) × (1024 ≤ length next_column.now)
        × (1024 ≤ length look_counts.now) × (length sheet_starts.old ≡ buckets + 1) × (length placed_starts.old ≡ buckets + 1)
        × (4096 ≤ length orientation.now) × (4096 ≤ length gap.now) × (4096 ≤ length x.now) × (4096 ≤ length y.now) }
    ensures { ((j : Job) (areas : List Float) → Tabled j rows.now areas → length j.kinds ≡ kinds → j.copies ≡ copies
        → result ≡ consistent j (state_of taken placed_strips right unplaced_area resolution bounds sheet_strips apart_strips inset_bounds.now
        parts.now order.now next_column.now look_counts.now
        orientation.now x.now y.now gap.now)
        (rooms_of shapes.now sheet.now placed.now sheet_entries.now placed_entries.now
        sheet_firsts.now placed_firsts.now))
        × (result ≡ true → Laid (sheet_index bounds) (take (6 * sheet_strips) sheet.now) (capacity (take (6 * sheet_strips) sheet.now))
        sheet_entries.now sheet_starts.new × Laid (sheet_index bounds) (take (6 * placed_strips) placed.now)
        (capacity (take (6 * placed_strips) placed.now)) placed_entries.now placed_starts.new
        × FirstBuckets (sheet_index bounds) (take (6 * sheet_strips) sheet.now) (capacity (take (6 * sheet_strips) sheet.now))
        sheet_firsts.now × FirstBuckets (sheet_index bounds) (take (6 * placed_strips) placed.now)
        (capacity (take (6 * placed_strips) placed.now)) placed_firsts.now) }
{
    state_fits(taken, copies, right, unplaced_area, resolution, bounds)
        && accounts::order::rearranged(&order[..copies], rows, kinds, copies)
        && strip_tests::gaps_fit(orientation, gap, taken)
        && rooms_agree(
            taken,
            placed_strips,
            resolution,
            bounds,
            sheet_strips,
            apart_strips,
            inset_bounds,
            parts,
            next_column,
            look_counts,
            rows,
            kinds,
            shapes,
            sheet,
            placed,
            sheet_entries,
            placed_entries,
            sheet_starts,
            placed_starts,
            sheet_firsts,
            placed_firsts,
            order,
            orientation,
            x,
            y,
        )
}
