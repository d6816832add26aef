// The filling in a given order (document 01, "Filling"): one copy after another, over tables and
// rooms that are prepared.
#![tactic(auto)]

ghost use Rattle.std.specs.Prelude.{true, ◌≡◌, ◌*◌, ◌≤◌, ◌<◌, length, replicate};
ghost use Rattle.index.specs.Buckets.{buckets};
ghost use Rattle.rooms.specs.tracks.inner.Tracks.{next_columns, look_counts_from, track_numbers, spot_numbers};
ghost use Rattle.job.specs.Jobs.{Job};
ghost use Rattle.filling.specs.Shapes.{planner_of};
ghost use Rattle.filling.specs.Rooms.{Lent};
ghost use Rattle.filling.specs.Order.{rearranged};
ghost use Rattle.filling.specs.Fill.{fill_order};
ghost use Rattle.filling_laws.specs.fill_laws.inner.Prepared.{given_in, Prepared, SheetFirsts, next_after};
ghost use Rattle.fill_order.specs.inner.Filled.{filled_in};

use choose::Grid;
use filling::Refusal;
use index::{Bucket, Entry};
use place::Totals;

// The copy or turn that comes after number i of n: none after a refusal.
pub fn next_after(v: Result<(), Refusal>, i: usize, n: usize) -> usize
    requires { i < n }
    ensures { result ≡ next_after v i n }
{
    match v {
        Ok(()) => i + 1,
        Err(_) => n,
    }
}

// Every copy of the order, from no copy on.
fn fill_copies(
    g: Grid,
    order: &[usize],
    rows: &[u64],
    areas: &[f64],
    inset_bounds: &[f64],
    parts: &[usize],
    shapes: &[f64],
    sheet: &[f64],
    sheet_entries: &[Entry],
    sheet_starts: &[usize],
    placed: &mut [f64],
    entries: &mut [Entry],
    starts: &mut [usize],
    gains: &mut [usize],
    room: &mut [f64],
    tracks: &mut [usize],
    spots: &mut [f64],
    sheet_firsts: &[Bucket],
    firsts: &mut [Bucket],
) -> Result<Totals, Refusal>
    requires { ((j : Job) × Prepared j (given_in g rows.now areas.now inset_bounds.now parts.now shapes.now sheet.now
        sheet_entries.now sheet_starts.now) × (rearranged j order.now ≡ true))
        × (6 * g.apart_strips ≤ length shapes.now) × (track_numbers ≤ length tracks.old) × (spot_numbers ≤ length spots.old)
        × (next_columns tracks.old ≡ replicate 1024 1) × (look_counts_from tracks.old ≡ replicate 1024 0) × (starts.old ≡ replicate 513 0)
        × (length gains.old ≡ buckets)
        × SheetFirsts (given_in g rows.now areas.now inset_bounds.now parts.now shapes.now sheet.now
        sheet_entries.now sheet_starts.now) sheet_firsts.now }
    ensures { (j : Job) → Prepared j (given_in g rows.now areas.now inset_bounds.now parts.now
        shapes.now sheet.now sheet_entries.now sheet_starts.now) → rearranged j order.now ≡ true
        → (l : Lent) → length l.rooms.placed ≡ length placed.old → length l.rooms.placed_entries ≡ length entries.old
        → length l.intervals ≡ length room.old → length l.rooms.placed_firsts ≡ length firsts.old
        → filled_in result (planner_of j) order.now tracks.new spots.new ≡ fill_order j l order.now }
{
    let mut t = Totals {
        placed_strips: 0,
        right: g.bounds.left,
        unplaced_area: 0.0,
    };
    for i in 0..order.len() {
        let step = place::next::place_next(
            g,
            place::copy_at(order, rows, areas, i),
            i,
            t,
            inset_bounds,
            parts,
            shapes,
            sheet,
            sheet_entries,
            sheet_starts,
            placed,
            entries,
            starts,
            gains,
            room,
            tracks,
            spots,
            sheet_firsts,
            firsts,
        );
        step.outcome?;
        t = step.totals;
    }
    Ok(t)
}

// The filling in the given order. What placed rooms, tracks, spots and intervals hold before does not
// matter. Only crates of ours call it: tables and rooms must be those of a job.
pub fn fill_order(
    g: Grid,
    order: &[usize],
    rows: &[u64],
    areas: &[f64],
    inset_bounds: &[f64],
    parts: &[usize],
    shapes: &[f64],
    sheet: &[f64],
    sheet_entries: &[Entry],
    sheet_starts: &[usize],
    placed: &mut [f64],
    entries: &mut [Entry],
    room: &mut [f64],
    tracks: &mut [usize],
    spots: &mut [f64],
    sheet_firsts: &[Bucket],
    firsts: &mut [Bucket],
) -> Result<Totals, Refusal>
    requires { ((j : Job) × Prepared j (given_in g rows.now areas.now inset_bounds.now parts.now shapes.now sheet.now
        sheet_entries.now sheet_starts.now) × (rearranged j order.now ≡ true))
        × (6 * g.apart_strips ≤ length shapes.now) × (track_numbers ≤ length tracks.old) × (spot_numbers ≤ length spots.old)
        × SheetFirsts (given_in g rows.now areas.now inset_bounds.now parts.now shapes.now sheet.now
        sheet_entries.now sheet_starts.now) sheet_firsts.now }
    ensures { (j : Job) → Prepared j (given_in g rows.now areas.now inset_bounds.now parts.now
        shapes.now sheet.now sheet_entries.now sheet_starts.now) → rearranged j order.now ≡ true
        → (l : Lent) → length l.rooms.placed ≡ length placed.old → length l.rooms.placed_entries ≡ length entries.old
        → length l.intervals ≡ length room.old → length l.rooms.placed_firsts ≡ length firsts.old
        → filled_in result (planner_of j) order.now tracks.new spots.new ≡ fill_order j l order.now }
{
    rooms::tracks::reset(tracks);
    let mut starts = [0; 513];
    let mut gains = [0; 512];
    fill_copies(
        g,
        order,
        rows,
        areas,
        inset_bounds,
        parts,
        shapes,
        sheet,
        sheet_entries,
        sheet_starts,
        placed,
        entries,
        &mut starts,
        &mut gains,
        room,
        tracks,
        spots,
        sheet_firsts,
        firsts,
    )
}
