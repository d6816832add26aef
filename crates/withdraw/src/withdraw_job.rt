// A withdrawal from an accepted job (document 02, W4): 31, then 24, then the copy goes.
ghost use Rattle.std.specs.Prelude.{◌≡◌, not, List, ◌≤◌, Float};
ghost use Rattle.job.specs.Jobs.{Job};
ghost use Rattle.filling.specs.Rooms.{Rooms, rooms_of};
ghost use Rattle.filling.specs.RefusalLines.{none_stands};
ghost use Rattle.filling.specs.Withdraw.{no_withdrawal, standing_here, withdraw_job};
ghost use Rattle.step.specs.step_job.inner.Opened.{Opened};
ghost use Rattle.withdraw.specs.Replied.{replied};

use filling::{Refusal, State};
use index::{Bucket, Entry};
use step::Stepped;

// The state as it was.
pub fn refuse(why: Refusal, state: State) -> Stepped
    ensures { (w : Rooms) → replied result w ≡ no_withdrawal why state w }
{
    Stepped {
        verdict: Err(why),
        state: state,
    }
}

// Whether a copy stands at a place of the order.
fn stands(state: State, place: usize) -> bool
    requires { state.taken ≤ 4096 }
    ensures { result ≡ not (none_stands (standing_here state place)) }
{
    if place < state.taken {
        let layout = state.layout;
        let orientation = layout.orientation;
        return orientation[place] != 0;
    }
    false
}

// A withdrawal from the job whose tables are given: 31, then 24, then the copy goes.
pub fn withdraw_job(
    rows: &[u64],
    kinds: usize,
    copies: usize,
    place: usize,
    state: State,
    shapes: &[f64],
    sheet: &[f64],
    sheet_entries: &[Entry],
    placed: &mut [f64],
    entries: &mut [Entry],
    sheet_firsts: &[Bucket],
    firsts: &mut [Bucket],
) -> Stepped
    requires { (j : Job) × (areas : List Float) × Opened j rows.now areas kinds copies }
    ensures { (j : Job) (areas : List Float) → Opened j rows.now areas kinds copies
        → replied result (rooms_of shapes.now sheet.now placed.new sheet_entries.now entries.new
        sheet_firsts.now firsts.new) ≡ withdraw_job j state (rooms_of shapes.now sheet.now
        placed.old sheet_entries.now entries.old sheet_firsts.now firsts.old) place }
{
    let mut sheet_starts = [0usize; 513];
    let mut starts = [0usize; 513];
    if consistent::agreed::agree(
        rows,
        kinds,
        copies,
        state,
        shapes,
        sheet,
        placed,
        sheet_entries,
        entries,
        &mut sheet_starts,
        &mut starts,
        sheet_firsts,
        firsts,
    ) {
        if stands(state, place) {
            let after = crate::withdraw_copy::withdraw_copy(
                state, place, copies, placed, entries, firsts,
            );
            return Stepped {
                verdict: Ok(()),
                state: after,
            };
        }
        return refuse(Refusal::NotStanding, state);
    }
    refuse(Refusal::Inconsistent, state)
}
