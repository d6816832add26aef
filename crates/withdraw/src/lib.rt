// The public operation `withdraw` (document 02, W4): a standing copy is taken back.
#![tactic(auto)]

pub mod standing;
pub mod withdraw_copy;
pub mod withdraw_job;

ghost use Rattle.std.specs.Prelude.{◌≡◌};
ghost use Rattle.filling.specs.Rooms.{rooms_of};
ghost use Rattle.filling.specs.Withdraw.{withdraw_of};
ghost use Rattle.withdraw.specs.Replied.{replied};

use filling::{Refusal, State};
use index::{Bucket, Entry};
use step::Stepped;

// The copy at a place of the order goes, over a state that a start, a next copy or a withdrawal
// returned and the rooms as it left them; it joins the end of the order. A refused withdrawal leaves
// the state and the rooms as they were.
pub fn withdraw(
    bytes: &[u8],
    place: usize,
    state: State,
    shapes: &[f64],
    sheet: &[f64],
    placed: &mut [f64],
    sheet_entries: &[Entry],
    placed_entries: &mut [Entry],
    sheet_firsts: &[Bucket],
    placed_firsts: &mut [Bucket],
) -> Stepped
    ensures { replied result (rooms_of shapes.now sheet.now placed.new sheet_entries.now
        placed_entries.new sheet_firsts.now placed_firsts.new) ≡ withdraw_of bytes.now state
        (rooms_of shapes.now sheet.now placed.old sheet_entries.now placed_entries.old
        sheet_firsts.now placed_firsts.old) place }
{
    let j = job::read(bytes);
    let rows = j.rows;
    let answer = j.answer;
    match answer {
        Ok((h, _, c)) => withdraw_job::withdraw_job(
            &rows,
            h.kinds as usize,
            c as usize,
            place,
            state,
            shapes,
            sheet,
            sheet_entries,
            placed,
            placed_entries,
            sheet_firsts,
            placed_firsts,
        ),
        Err(k) => withdraw_job::refuse(Refusal::Job(k), state),
    }
}
