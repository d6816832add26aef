// The next copies of an accepted job (document 02, W5): 31, then the copies, 23 where the order is used
// up.
ghost use Rattle.std.specs.Prelude.{◌≡◌, ◌<◌};
ghost use Rattle.numbers.specs.Numbers.{pos_zero};
ghost use Rattle.job.specs.Jobs.{Job};
ghost use Rattle.filling.specs.Rooms.{Rooms, zeros};
ghost use Rattle.filling.specs.Consistent.{consistent};
ghost use Rattle.filling.proofs.Sizes.{Sized};
ghost use Rattle.step.specs.inner.Going.{rooms};
ghost use Rattle.step.specs.step_job.inner.Opened.{Opened};
ghost use Rattle.batch.specs.NextCopies.{none_taken};
ghost use Rattle.batch.specs.inner.Tested.{tested_from};
ghost use Rattle.next_copies.specs.Answer.{answered};

use crate::Taken;
use filling::{Refusal, State};
use index::{Bucket, Entry};

// The state as it was, and zeros in the interval room.
pub fn none_taken(verdict: Result<(), Refusal>, state: State, intervals: &mut [f64]) -> Taken
    ensures { (w : Rooms) → answered result w intervals.new ≡ none_taken verdict state w (zeros pos_zero intervals.old) }
{
    intervals.fill(0.0);
    Taken {
        took: 0,
        verdict: verdict,
        state: state,
    }
}

// The next n copies of the job whose tables are given; one at the least.
pub fn copies_job(
    rows: &[u64],
    areas: &[f64],
    kinds: usize,
    copies: usize,
    n: usize,
    state: State,
    shapes: &[f64],
    sheet: &[f64],
    sheet_entries: &[Entry],
    placed: &mut [f64],
    entries: &mut [Entry],
    intervals: &mut [f64],
    sheet_firsts: &[Bucket],
    firsts: &mut [Bucket],
) -> Taken
    requires { ((j : Job) × Opened j rows.now areas.now kinds copies × Sized j) × (0 < n) }
    ensures { (j : Job) → Opened j rows.now areas.now kinds copies → Sized j
        → answered result (rooms shapes.now sheet.now placed.new sheet_entries.now entries.new
        sheet_firsts.now firsts.new) intervals.new ≡ tested_from j n state (rooms shapes.now
        sheet.now placed.old sheet_entries.now entries.old sheet_firsts.now
        firsts.old) (zeros pos_zero intervals.old) (consistent j state (rooms shapes.now sheet.now
        placed.old sheet_entries.now entries.old sheet_firsts.now firsts.old)) }
{
    let mut sheet_starts = [0usize; 513];
    let mut starts = [0usize; 513];
    if consistent::agreed::agree(
        rows,
        kinds,
        copies,
        state,
        shapes,
        sheet,
        placed,
        sheet_entries,
        entries,
        &mut sheet_starts,
        &mut starts,
        sheet_firsts,
        firsts,
    ) {
        return crate::take_all::take_all(
            n.min(copies - state.taken),
            n,
            rows,
            areas,
            state,
            shapes,
            sheet,
            sheet_entries,
            &sheet_starts,
            placed,
            entries,
            &mut starts,
            intervals,
            sheet_firsts,
            firsts,
        );
    }
    none_taken(Err(Refusal::Inconsistent), state, intervals)
}
