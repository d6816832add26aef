// Whether state and rooms agree (document 01, refusal 31), of a state as a whole.
ghost use Rattle.std.specs.Prelude.{◌≡◌, true, List, ℕ, ◌+◌, ◌*◌, ◌≤◌, ◌<◌, length, get_or, take, Float};
ghost use Rattle.trapezoid.specs.Strip.{capacity};
ghost use Rattle.index.specs.Buckets.{buckets};
ghost use Rattle.index.specs.inner.Listing.{Laid, FirstBuckets};
ghost use Rattle.job.specs.Jobs.{Job};
ghost use Rattle.filling.specs.Rooms.{rooms_of};
ghost use Rattle.filling.specs.Consistent.{sheet_index, consistent};
ghost use Rattle.accounts.specs.tables.inner.Tabled.{Tabled};

use filling::State;
use index::{Bucket, Entry};

// Whether state and rooms agree, and if so the starts of their buckets. Only crates of ours call it:
// rows and kinds must be a job's, copies its copies.
pub fn agree(
    rows: &[u64],
    kinds: usize,
    copies: usize,
    state: State,
    shapes: &[f64],
    sheet: &[f64],
    placed: &[f64],
    sheet_entries: &[Entry],
    entries: &[Entry],
    sheet_starts: &mut [usize],
    starts: &mut [usize],
    sheet_firsts: &[Bucket],
    firsts: &[Bucket],
) -> bool
    requires { (kinds ≤ 64) × (256 ≤ length rows.now) × ((k : ℕ) → k < kinds → get_or rows.now (4 * k + 3) 0 ≤ 16) × (copies ≤ 4096)
        × (length sheet_starts.old ≡ buckets + 1) × (length starts.old ≡ buckets + 1) }
    ensures { ((j : Job) (areas : List Float) → Tabled j rows.now areas → length j.kinds ≡ kinds → j.copies ≡ copies
        → result ≡ consistent j state (rooms_of shapes.now sheet.now placed.now sheet_entries.now entries.now
        sheet_firsts.now firsts.now))
        × (result ≡ true → Laid (sheet_index state.tables.sheet_bounds) (take (6 * state.tables.sheet_strips) sheet.now)
        (capacity (take (6 * state.tables.sheet_strips) sheet.now)) sheet_entries.now sheet_starts.new
        × Laid (sheet_index state.tables.sheet_bounds) (take (6 * state.placed_strips) placed.now)
        (capacity (take (6 * state.placed_strips) placed.now)) entries.now starts.new
        × FirstBuckets (sheet_index state.tables.sheet_bounds) (take (6 * state.tables.sheet_strips) sheet.now)
        (capacity (take (6 * state.tables.sheet_strips) sheet.now)) sheet_firsts.now
        × FirstBuckets (sheet_index state.tables.sheet_bounds) (take (6 * state.placed_strips) placed.now)
        (capacity (take (6 * state.placed_strips) placed.now)) firsts.now) }
{
    let inset_bounds = state.tables.inset_bounds;
    let parts = state.tables.parts;
    let order = state.order;
    let next_column = state.next_column;
    let look_counts = state.look_counts;
    let orientation = state.layout.orientation;
    let x = state.layout.x;
    let y = state.layout.y;
    let gap = state.layout.gap;
    crate::consistent(
        state.taken,
        state.placed_strips,
        state.layout.right,
        state.layout.unplaced_area,
        state.tables.resolution,
        state.tables.sheet_bounds,
        state.tables.sheet_strips,
        state.tables.apart_strips,
        &inset_bounds,
        &parts,
        &order,
        &next_column,
        &look_counts,
        rows,
        kinds,
        copies,
        shapes,
        sheet,
        placed,
        sheet_entries,
        entries,
        sheet_starts,
        starts,
        sheet_firsts,
        firsts,
        &orientation,
        &gap,
        &x,
        &y,
    )
}
