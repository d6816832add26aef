// A single step of an accepted job (document 01): 31, then 23, then the copy.
ghost use Rattle.std.specs.Prelude.{◌≡◌};
ghost use Rattle.job.specs.Jobs.{Job};
ghost use Rattle.filling.specs.Rooms.{Rooms};
ghost use Rattle.filling.specs.NextCopy.{no_step, step_job};
ghost use Rattle.step.specs.inner.Going.{rooms, step_of};
ghost use Rattle.step.specs.step_job.inner.Opened.{Opened};

use crate::Stepped;
use filling::{Refusal, State};
use index::{Bucket, Entry};

// The state as it was, and zeros in the interval room.
pub fn refuse(why: Refusal, state: State, intervals: &mut [f64]) -> Stepped
    ensures { (w : Rooms) → step_of result w intervals.new ≡ no_step why state w intervals.old }
{
    intervals.fill(0.0);
    Stepped {
        verdict: Err(why),
        state,
    }
}

// A step of the job whose tables are given: 31, then 23, then the copy.
pub fn step_job(
    rows: &[u64],
    areas: &[f64],
    kinds: usize,
    copies: usize,
    state: State,
    shapes: &[f64],
    sheet: &[f64],
    sheet_entries: &[Entry],
    placed: &mut [f64],
    entries: &mut [Entry],
    intervals: &mut [f64],
    sheet_firsts: &[Bucket],
    firsts: &mut [Bucket],
) -> Stepped
    requires { (j : Job) × Opened j rows.now areas.now kinds copies }
    ensures { (j : Job) → Opened j rows.now areas.now kinds copies
        → step_of result (rooms shapes.now sheet.now placed.new sheet_entries.now entries.new
        sheet_firsts.now firsts.new) intervals.new ≡ step_job j state (rooms shapes.now sheet.now
        placed.old sheet_entries.now entries.old sheet_firsts.now firsts.old)
        intervals.old }
{
    let mut sheet_starts = [0usize; 513];
    let mut starts = [0usize; 513];
    if !consistent::agreed::agree(
        rows,
        kinds,
        copies,
        state,
        shapes,
        sheet,
        placed,
        sheet_entries,
        entries,
        &mut sheet_starts,
        &mut starts,
        sheet_firsts,
        firsts,
    ) {
        return refuse(Refusal::Inconsistent, state, intervals);
    }
    if copies <= state.taken {
        return refuse(Refusal::OrderUsedUp, state, intervals);
    }
    crate::step_copy(
        rows,
        areas,
        state,
        shapes,
        sheet,
        sheet_entries,
        &sheet_starts,
        placed,
        entries,
        &mut starts,
        intervals,
        sheet_firsts,
        firsts,
    )
}
