// The public operation `next_copies` (document 02, W5): the next n copies in one call.
#![tactic(auto)]

pub mod copies_job;
pub mod take_all;

ghost use Rattle.std.specs.Prelude.{◌≡◌};
ghost use Rattle.filling.specs.Rooms.{rooms_of};
ghost use Rattle.batch.specs.NextCopies.{next_copies_of};
ghost use Rattle.next_copies.specs.Answer.{answered};

use bits::Refusal as Input;
use filling::{Refusal, State};
use index::{Bucket, Entry};

// How many copies were taken, those without a place included; the refusal that ended it, if one did; the
// state after the last copy that was taken.
#[derive(Clone, Copy)]
pub struct Taken {
    pub took: usize,
    pub verdict: Result<(), Refusal>,
    pub state: State,
}

// How many copies can be asked for.
const MOST: usize = 4096;

// The next n copies of the order, as n calls of `next_copy` take them: the first that is refused ends
// it, and those before it remain. None and too many are answered before the job is read. The interval
// room is left at zeros.
pub fn next_copies(
    bytes: &[u8],
    n: usize,
    state: State,
    shapes: &[f64],
    sheet: &[f64],
    placed: &mut [f64],
    sheet_entries: &[Entry],
    placed_entries: &mut [Entry],
    sheet_firsts: &[Bucket],
    placed_firsts: &mut [Bucket],
    intervals: &mut [f64],
) -> Taken
    ensures { answered result (rooms_of shapes.now sheet.now placed.new sheet_entries.now
        placed_entries.new sheet_firsts.now placed_firsts.new) intervals.new ≡ next_copies_of
        bytes.now n state (rooms_of shapes.now sheet.now placed.old sheet_entries.now
        placed_entries.old sheet_firsts.now placed_firsts.old) intervals.old }
{
    if n == 0 {
        return copies_job::none_taken(Ok(()), state, intervals);
    }
    if n > MOST {
        return copies_job::none_taken(Err(Refusal::Job(Input::CountOutOfRange)), state, intervals);
    }
    let j = job::read(bytes);
    let rows = j.rows;
    let areas = j.areas;
    let answer = j.answer;
    match answer {
        Ok((h, _, c)) => copies_job::copies_job(
            &rows,
            &areas,
            h.kinds as usize,
            c as usize,
            n,
            state,
            shapes,
            sheet,
            sheet_entries,
            placed,
            placed_entries,
            intervals,
            sheet_firsts,
            placed_firsts,
        ),
        Err(k) => copies_job::none_taken(Err(Refusal::Job(k)), state, intervals),
    }
}
