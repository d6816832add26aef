// A single step (document 01): the next copy of a state and its rooms.
#![tactic(auto)]

pub mod step_job;

ghost use Rattle.std.specs.Prelude.{◌≡◌, ◌+◌, ◌≤◌, ◌<◌, length};
ghost use Rattle.job.specs.Jobs.{Job};
ghost use Rattle.filling.specs.NextCopy.{core_step};
ghost use Rattle.rooms.specs.tracks.inner.Tracks.{next_columns, look_counts_from, slot_numbers};
ghost use Rattle.place.specs.inner.Placing.{totals_of, verdict_of, Under};
ghost use Rattle.step.specs.inner.Going.{rooms, Going, taken_of, answer_of, step_of};

use filling::{Layout, State};
use index::{Bucket, Entry};
use place::{Step, Totals};

// What a single step answers: its verdict, and the state after it.
#[derive(Clone, Copy)]
pub struct Stepped {
    pub verdict: Result<(), filling::Refusal>,
    pub state: State,
}

// What stands beside the rooms.
pub fn totals_of(state: State) -> Totals
    ensures { result ≡ totals_of state }
{
    Totals {
        placed_strips: state.placed_strips,
        right: state.layout.right,
        unplaced_area: state.layout.unplaced_area,
    }
}

// A table for the slots' numbers, made apart: its zeros would be written out at each goal of the caller.
fn no_tracks() -> [usize; 2048]
    ensures { length result ≡ slot_numbers }
{
    [0usize; 2048]
}

// The slots' numbers of the state in one table.
pub fn tracks_of(state: State) -> [usize; 2048]
    ensures { (length result ≡ slot_numbers) × (next_columns result ≡ state.next_column) × (look_counts_from result ≡ state.look_counts) }
{
    let next_column = state.next_column;
    let look_counts = state.look_counts;
    let mut tracks = no_tracks();
    rooms::tracks::join(&next_column, &look_counts, &mut tracks);
    tracks
}

// The state after a copy that is taken, one of n orientations.
fn taken(state: State, n: usize, step: Step, tracks: &[usize]) -> State
    requires { (state.taken < 4096) × Under n step.outcome × (n ≤ 1024) × (slot_numbers ≤ length tracks.now) }
    ensures { result ≡ taken_of (state.taken + 1) state step tracks.now }
{
    let tables = state.tables;
    let order = state.order;
    let mut next_column = state.next_column;
    let mut look_counts = state.look_counts;
    rooms::tracks::read(tracks, 2, 0, &mut next_column);
    rooms::tracks::read(tracks, 2, 1, &mut look_counts);
    let at = state.taken;
    let o = step.outcome;
    let layout = state.layout;
    let mut orientation = layout.orientation;
    let mut x = layout.x;
    let mut y = layout.y;
    let mut gap = layout.gap;
    let spot = place::next::spot_of(o);
    orientation[at] = spot.number;
    x[at] = spot.x;
    y[at] = spot.y;
    gap[at] = spot.gap;
    let t = step.totals;
    State {
        tables,
        order,
        taken: at + 1,
        next_column,
        look_counts,
        placed_strips: t.placed_strips,
        layout: Layout {
            orientation,
            x,
            y,
            gap,
            unplaced_area: t.unplaced_area,
            right: t.right,
        },
    }
}

// The answer: the state after the copy, or the old one where it is refused.
fn answer(state: State, n: usize, step: Step, tracks: &[usize]) -> Stepped
    requires { (state.taken < 4096) × Under n step.outcome × (n ≤ 1024) × (slot_numbers ≤ length tracks.now) }
    ensures { result ≡ answer_of state step tracks.now (verdict_of step.outcome) }
{
    match step.outcome {
        Ok(_) => Stepped {
            verdict: Ok(()),
            state: taken(state, n, step, tracks),
        },
        Err(r) => Stepped {
            verdict: Err(r),
            state,
        },
    }
}

// The next copy, of a job whose tables are given. Only crates of ours call it: state and rooms must
// have passed refusal 31's tests, with a copy to come.
pub fn step_copy(
    rows: &[u64],
    areas: &[f64],
    state: State,
    shapes: &[f64],
    sheet: &[f64],
    sheet_entries: &[Entry],
    sheet_starts: &[usize],
    placed: &mut [f64],
    entries: &mut [Entry],
    starts: &mut [usize],
    intervals: &mut [f64],
    sheet_firsts: &[Bucket],
    firsts: &mut [Bucket],
) -> Stepped
    requires { (j : Job) × Going j state (rooms shapes.now sheet.now placed.old sheet_entries.now entries.old sheet_firsts.now firsts.old)
        rows.now areas.now sheet_starts.now starts.old }
    ensures { (j : Job) → Going j state (rooms shapes.now sheet.now placed.old sheet_entries.now
        entries.old sheet_firsts.now firsts.old) rows.now areas.now sheet_starts.now
        starts.old → step_of result (rooms shapes.now sheet.now placed.new sheet_entries.now
        entries.new sheet_firsts.now firsts.new) intervals.new ≡ core_step j state (rooms shapes.now
        sheet.now placed.old sheet_entries.now entries.old sheet_firsts.now firsts.old)
        intervals.old }
{
    let order = state.order;
    let copy = place::copy_at(&order, rows, areas, state.taken);
    let tables = state.tables;
    let g = choose::grid_of(tables);
    let t = totals_of(state);
    let inset_bounds = tables.inset_bounds;
    let parts = tables.parts;
    let end = 6 * tables.sheet_strips;
    let mut gains = [0usize; 512];
    let mut tracks = tracks_of(state);
    let step = place::place_copy(
        g,
        copy,
        t,
        &inset_bounds,
        &parts,
        shapes,
        &sheet[..end],
        sheet_entries,
        sheet_starts,
        placed,
        entries,
        starts,
        &mut gains,
        intervals,
        &mut tracks,
        sheet_firsts,
        firsts,
    );
    intervals.fill(0.0);
    answer(state, copy.orientations, step, &tracks)
}
