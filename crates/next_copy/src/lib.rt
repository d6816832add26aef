// The public operation `next_copy` (document 01): a single step over a state and its rooms.
#![tactic(auto)]

ghost use Rattle.std.specs.Prelude.{◌≡◌};
ghost use Rattle.filling.specs.NextCopy.{next_copy_of};
ghost use Rattle.filling.specs.Rooms.{rooms_of};
ghost use Rattle.next_copy.specs.Reply.{replied};

use filling::{Refusal, State};
use index::{Bucket, Entry};
use step::Stepped;

// One copy of the order, over a state that a start or a step returned and the rooms as it left them.
// A refused step leaves the state and the rooms of strips, entries and buckets as they were; every
// step leaves zeros in the interval room.
pub fn next_copy(
    bytes: &[u8],
    state: State,
    shapes: &[f64],
    sheet: &[f64],
    placed: &mut [f64],
    sheet_entries: &[Entry],
    placed_entries: &mut [Entry],
    sheet_firsts: &[Bucket],
    placed_firsts: &mut [Bucket],
    intervals: &mut [f64],
) -> Stepped
    ensures { replied result (rooms_of shapes.now sheet.now placed.new sheet_entries.now
        placed_entries.new sheet_firsts.now placed_firsts.new) intervals.new ≡ next_copy_of bytes.now
        state (rooms_of shapes.now sheet.now placed.old sheet_entries.now placed_entries.old
        sheet_firsts.now placed_firsts.old) intervals.old }
{
    let j = job::read(bytes);
    let rows = j.rows;
    let areas = j.areas;
    match j.answer {
        Ok((h, _, c)) => step::step_job::step_job(
            &rows,
            &areas,
            h.kinds as usize,
            c as usize,
            state,
            shapes,
            sheet,
            sheet_entries,
            placed,
            placed_entries,
            intervals,
            sheet_firsts,
            placed_firsts,
        ),
        Err(k) => step::step_job::refuse(Refusal::Job(k), state, intervals),
    }
}
