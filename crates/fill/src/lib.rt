// The public operation `fill`: a filling of a job in a given order (document 01, "the filling in a
// given order"). Accepted, it leaves the positions; the other rooms, and all of them where it is
// refused, are left zero.
#![tactic(auto)]

ghost use Rattle.std.specs.Prelude.{◌≡◌};
ghost use Rattle.filling.specs.Rooms.{Lent, lent_of};
ghost use Rattle.filling.specs.Fill.{fill_of};
ghost use Rattle.report.specs.inner.Replies.{reply, reply_of};
ghost use Rattle.report.specs.Lent.{answered};
ghost use Rattle.report.specs.readied.inner.Zeroed.{Zeroed};

use filling::{Plan, Refusal};
use index::{Bucket, Entry};
use report::NestResult;

// The filling of the job that the bytes are, in rooms that are zero.
fn fill_bytes(
    bytes: &[u8],
    order: &[usize],
    shapes: &mut [f64],
    sheet: &mut [f64],
    placed: &mut [f64],
    sheet_entries: &mut [Entry],
    placed_entries: &mut [Entry],
    intervals: &mut [f64],
    positions: &mut [f64],
    sheet_firsts: &mut [Bucket],
    placed_firsts: &mut [Bucket],
) -> Result<Plan, Refusal>
    requires { (l : Lent) × Zeroed l shapes.old sheet.old placed.old sheet_entries.old placed_entries.old
        intervals.old positions.old sheet_firsts.old placed_firsts.old }
    ensures { (l : Lent) → Zeroed l shapes.old sheet.old placed.old sheet_entries.old
        placed_entries.old intervals.old positions.old sheet_firsts.old placed_firsts.old
        → reply result positions.new ≡ reply_of (fill_of bytes.now order.now l) }
{
    let j = job::read(bytes);
    let (h, at, copies) = j.answer?;
    plan_job::fill_job::fill_job(
        bytes,
        at,
        h,
        copies as usize,
        order,
        &j.rows,
        &j.areas,
        &j.places,
        shapes,
        sheet,
        placed,
        sheet_entries,
        placed_entries,
        intervals,
        positions,
        sheet_firsts,
        placed_firsts,
    )
}

// The filling of the job in the given order: its verdict and plan; the positions lie in their room.
// `nest` clears and answers alike: one function for both would take a closure over nine rooms.
pub fn fill(
    bytes: &[u8],
    order: &[usize],
    shapes: &mut [f64],
    sheet: &mut [f64],
    placed: &mut [f64],
    sheet_entries: &mut [Entry],
    placed_entries: &mut [Entry],
    sheet_firsts: &mut [Bucket],
    placed_firsts: &mut [Bucket],
    intervals: &mut [f64],
    positions: &mut [f64],
) -> NestResult
    ensures { answered result (lent_of shapes.new sheet.new placed.new sheet_entries.new
        placed_entries.new sheet_firsts.new placed_firsts.new intervals.new positions.new)
        ≡ fill_of bytes.now order.now
        (lent_of shapes.old sheet.old placed.old sheet_entries.old placed_entries.old
        sheet_firsts.old placed_firsts.old intervals.old positions.old) }
{
    positions.fill(0.0);
    report::clear(
        shapes,
        sheet,
        placed,
        sheet_entries,
        placed_entries,
        intervals,
        sheet_firsts,
        placed_firsts,
    );
    let r = fill_bytes(
        bytes,
        order,
        shapes,
        sheet,
        placed,
        sheet_entries,
        placed_entries,
        intervals,
        positions,
        sheet_firsts,
        placed_firsts,
    );
    report::clear(
        shapes,
        sheet,
        placed,
        sheet_entries,
        placed_entries,
        intervals,
        sheet_firsts,
        placed_firsts,
    );
    NestResult::from(r)
}
