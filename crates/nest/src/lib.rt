// The public operation `nest`: the whole plan of a job (document 01, "A refused whole plan returns
// only the number and zeros every lent room; an accepted one leaves its positions, with zeros after
// them and in the work rooms").
#![tactic(auto)]

ghost use Rattle.std.specs.Prelude.{◌≡◌};
ghost use Rattle.filling.specs.Rooms.{Lent, lent_of};
ghost use Rattle.nesting.specs.Nest.{nest_of};
ghost use Rattle.report.specs.inner.Replies.{reply, reply_of};
ghost use Rattle.report.specs.readied.inner.Zeroed.{Zeroed};
ghost use Rattle.report.specs.Lent.{answered};

use filling::{Plan, Refusal};
use index::{Bucket, Entry};
use report::NestResult;

// The whole plan of the job that the bytes are, in rooms that are zero.
fn nest_bytes(
    bytes: &[u8],
    shapes: &mut [f64],
    sheet: &mut [f64],
    placed: &mut [f64],
    sheet_entries: &mut [Entry],
    placed_entries: &mut [Entry],
    intervals: &mut [f64],
    positions: &mut [f64],
    sheet_firsts: &mut [Bucket],
    placed_firsts: &mut [Bucket],
) -> Result<Plan, Refusal>
    requires { (l : Lent) × Zeroed l shapes.old sheet.old placed.old sheet_entries.old placed_entries.old
        intervals.old positions.old sheet_firsts.old placed_firsts.old }
    ensures { (l : Lent) → Zeroed l shapes.old sheet.old placed.old sheet_entries.old
        placed_entries.old intervals.old positions.old sheet_firsts.old placed_firsts.old
        → reply result positions.new ≡ reply_of (nest_of bytes.now l) }
{
    let j = job::read(bytes);
    let (h, at, copies) = j.answer?;
    plan_job::nest_job(
        bytes,
        at,
        h,
        copies as usize,
        &j.rows,
        &j.areas,
        &j.places,
        shapes,
        sheet,
        placed,
        sheet_entries,
        placed_entries,
        intervals,
        positions,
        sheet_firsts,
        placed_firsts,
    )
}

// The whole plan of the job: its verdict and plan; the positions lie in their room.
// `fill` clears and answers alike: one function for both would take a closure over nine rooms.
pub fn nest(
    bytes: &[u8],
    shapes: &mut [f64],
    sheet: &mut [f64],
    placed: &mut [f64],
    sheet_entries: &mut [Entry],
    placed_entries: &mut [Entry],
    sheet_firsts: &mut [Bucket],
    placed_firsts: &mut [Bucket],
    intervals: &mut [f64],
    positions: &mut [f64],
) -> NestResult
    ensures { answered result (lent_of shapes.new sheet.new placed.new sheet_entries.new
        placed_entries.new sheet_firsts.new placed_firsts.new intervals.new positions.new)
        ≡ nest_of bytes.now
        (lent_of shapes.old sheet.old placed.old sheet_entries.old placed_entries.old
        sheet_firsts.old placed_firsts.old intervals.old positions.old) }
{
    positions.fill(0.0);
    report::clear(
        shapes,
        sheet,
        placed,
        sheet_entries,
        placed_entries,
        intervals,
        sheet_firsts,
        placed_firsts,
    );
    let r = nest_bytes(
        bytes,
        shapes,
        sheet,
        placed,
        sheet_entries,
        placed_entries,
        intervals,
        positions,
        sheet_firsts,
        placed_firsts,
    );
    report::clear(
        shapes,
        sheet,
        placed,
        sheet_entries,
        placed_entries,
        intervals,
        sheet_firsts,
        placed_firsts,
    );
    NestResult::from(r)
}
