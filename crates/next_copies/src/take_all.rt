// The copies that are asked for, from a state and rooms that refusal 31 lets pass (document 02, W5): the
// state is spread over arrays, the copies are taken, and the state is put together again. Only crates
// of ours call these functions.
ghost use Rattle.std.specs.Prelude.{Ok, ◌≡◌, true, List, ℕ, ◌+◌, ◌-◌, ◌≤◌, ◌<◌, length, Float};
ghost use Rattle.numbers.specs.Numbers.{pos_zero};
ghost use Rattle.job.specs.Jobs.{Job};
ghost use Rattle.filling.specs.Rooms.{zeros};
ghost use Rattle.rooms.specs.tracks.inner.Tracks.{slot_numbers};
ghost use Rattle.place.specs.inner.Placing.{totals_of};
ghost use Rattle.step.specs.inner.Going.{rooms};
ghost use Rattle.batch.specs.inner.Tested.{more_taken, tested_from};
ghost use Rattle.take_copy.specs.turn.inner.Turning.{state_in, Sizes};
ghost use Rattle.take_copies.specs.inner.Run.{rest_of};
ghost use Rattle.next_copies.specs.Answer.{answered};
ghost use Rattle.next_copies.specs.take_all.inner.Spread.{last_verdict, Starting};

use crate::Taken;
use filling::{Layout, Refusal, State};
use index::{Bucket, Entry};
use take_copies::Run;

// At most so many copies of a state whose slots' numbers and layout lie in arrays.
fn run_state(
    most: usize,
    state: State,
    rows: &[u64],
    areas: &[f64],
    shapes: &[f64],
    sheet: &[f64],
    sheet_entries: &[Entry],
    sheet_starts: &[usize],
    placed: &mut [f64],
    entries: &mut [Entry],
    starts: &mut [usize],
    room: &mut [f64],
    tracks: &mut [usize],
    orientation: &mut [usize],
    x: &mut [f64],
    y: &mut [f64],
    gap: &mut [f64],
    sheet_firsts: &[Bucket],
    firsts: &mut [Bucket],
) -> Run
    requires { ((j : Job) × Starting j state (rooms shapes.now sheet.now placed.old sheet_entries.now entries.old sheet_firsts.now
        firsts.old) rows.now areas.now sheet_starts.now starts.old most)
        × (state_in state.tables state.order state.taken tracks.old (totals_of state) orientation.old x.old y.old gap.old ≡ state)
        × Sizes orientation.old x.old y.old gap.old × (slot_numbers ≤ length tracks.old) }
    ensures { ((j : Job) (intervals : List Float) (n : ℕ) → Starting j state (rooms shapes.now sheet.now placed.old
        sheet_entries.now entries.old sheet_firsts.now firsts.old) rows.now
        areas.now sheet_starts.now starts.old most → length intervals ≡ length room.old → most ≤ n
        → more_taken result.took (rest_of j result.last.verdict (n - result.took) (state_in state.tables state.order (state.taken + result.took)
        tracks.new result.last.totals orientation.new x.new y.new gap.new)
        (rooms shapes.now sheet.now placed.new sheet_entries.now entries.new
        sheet_firsts.now firsts.new) (zeros pos_zero intervals) result.last.fits) ≡ tested_from j n state (rooms shapes.now
        sheet.now placed.old sheet_entries.now entries.old sheet_firsts.now
        firsts.old) (zeros pos_zero intervals) true)
        × (result.took ≤ most) × (result.last.verdict ≡ (Ok tt) → result.last.fits ≡ true → result.took ≡ most) }
{
    let tables = state.tables;
    let inset_bounds = tables.inset_bounds;
    let parts = tables.parts;
    let order = state.order;
    let end = 6 * tables.sheet_strips;
    let mut gains = [0usize; 512];
    take_copies::take_copies(
        most,
        state.taken,
        choose::grid_of(tables),
        step::totals_of(state),
        &order,
        rows,
        areas,
        &inset_bounds,
        &parts,
        shapes,
        &sheet[..end],
        sheet_entries,
        sheet_starts,
        placed,
        entries,
        starts,
        &mut gains,
        room,
        tracks,
        orientation,
        x,
        y,
        gap,
        sheet_firsts,
        firsts,
    )
}

// What ended it, where n copies were asked for.
fn last_verdict(run: Run, n: usize) -> Result<(), Refusal>
    ensures { result ≡ last_verdict run.last.verdict run.last.fits run.took n }
{
    let last = run.last;
    let v = last.verdict;
    match v {
        Err(k) => Err(k),
        Ok(()) => {
            if run.took == n {
                return Ok(());
            }
            if last.fits {
                return Err(Refusal::OrderUsedUp);
            }
            Err(Refusal::Inconsistent)
        }
    }
}

// The state after it.
fn state_after(
    state: State,
    run: Run,
    tracks: &[usize],
    orientation: [usize; 4096],
    x: [f64; 4096],
    y: [f64; 4096],
    gap: [f64; 4096],
) -> State
    requires { (slot_numbers ≤ length tracks.now) × (state.taken + run.took ≤ 4096) }
    ensures { result ≡ state_in state.tables state.order (state.taken + run.took) tracks.now run.last.totals orientation x y gap }
{
    let tables = state.tables;
    let order = state.order;
    let mut next_column = state.next_column;
    let mut look_counts = state.look_counts;
    rooms::tracks::read(tracks, 2, 0, &mut next_column);
    rooms::tracks::read(tracks, 2, 1, &mut look_counts);
    let last = run.last;
    let t = last.totals;
    let taken = state.taken + run.took;
    State {
        tables: tables,
        order: order,
        taken: taken,
        next_column: next_column,
        look_counts: look_counts,
        placed_strips: t.placed_strips,
        layout: Layout {
            orientation: orientation,
            x: x,
            y: y,
            gap: gap,
            unplaced_area: t.unplaced_area,
            right: t.right,
        },
    }
}

// The next n copies of a job with so many left at the most.
pub fn take_all(
    most: usize,
    n: usize,
    rows: &[u64],
    areas: &[f64],
    state: State,
    shapes: &[f64],
    sheet: &[f64],
    sheet_entries: &[Entry],
    sheet_starts: &[usize],
    placed: &mut [f64],
    entries: &mut [Entry],
    starts: &mut [usize],
    intervals: &mut [f64],
    sheet_firsts: &[Bucket],
    firsts: &mut [Bucket],
) -> Taken
    requires { (j : Job) × Starting j state (rooms shapes.now sheet.now placed.old sheet_entries.now entries.old sheet_firsts.now
        firsts.old) rows.now areas.now sheet_starts.now starts.old most }
    ensures { (j : Job) → Starting j state (rooms shapes.now sheet.now placed.old sheet_entries.now
        entries.old sheet_firsts.now firsts.old) rows.now areas.now
        sheet_starts.now starts.old most → most ≤ n → (most < n → j.copies ≤ state.taken + most)
        → answered result (rooms shapes.now sheet.now placed.new sheet_entries.now entries.new
        sheet_firsts.now firsts.new) intervals.new ≡ tested_from j n state (rooms shapes.now
        sheet.now placed.old sheet_entries.now entries.old sheet_firsts.now
        firsts.old) (zeros pos_zero intervals.old) true }
{
    let old = state.layout;
    let mut orientation = old.orientation;
    let mut x = old.x;
    let mut y = old.y;
    let mut gap = old.gap;
    let mut tracks = step::tracks_of(state);
    let run = run_state(
        most,
        state,
        rows,
        areas,
        shapes,
        sheet,
        sheet_entries,
        sheet_starts,
        placed,
        entries,
        starts,
        intervals,
        &mut tracks,
        &mut orientation,
        &mut x,
        &mut y,
        &mut gap,
        sheet_firsts,
        firsts,
    );
    intervals.fill(0.0);
    let after = state_after(state, run, &tracks, orientation, x, y, gap);
    Taken {
        took: run.took,
        verdict: last_verdict(run, n),
        state: after,
    }
}
