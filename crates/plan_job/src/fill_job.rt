// The filling of an accepted job in a given order: 30, then 10, then what is prepared (20, 21), then
// the copies (document 01, "A filling in a given order .. 10 right after 30").
ghost use Rattle.std.specs.Prelude.{◌≡◌, ◌≤◌, length};
ghost use Rattle.job.specs.Jobs.{Job};
ghost use Rattle.filling.specs.Rooms.{Lent};
ghost use Rattle.filling.specs.Fill.{fill_job};
ghost use Rattle.report.specs.inner.Replies.{reply, reply_of};
ghost use Rattle.report.specs.readied.inner.Zeroed.{Zeroed, ReadInto};

use filling::{Plan, Refusal};
use index::{Bucket, Entry};
use job::Header;

// The job that was read into the tables, with so many copies. All rooms are zero. Only crates of
// ours call it.
pub fn fill_job(
    bytes: &[u8],
    at: u32,
    h: Header,
    copies: usize,
    order: &[usize],
    rows: &[u64],
    areas: &[f64],
    places: &[u32],
    shapes: &mut [f64],
    sheet: &mut [f64],
    placed: &mut [f64],
    sheet_entries: &mut [Entry],
    placed_entries: &mut [Entry],
    intervals: &mut [f64],
    positions: &mut [f64],
    sheet_firsts: &mut [Bucket],
    placed_firsts: &mut [Bucket],
) -> Result<Plan, Refusal>
    requires { ((j : Job) × (l : Lent) × ReadInto j bytes.now at h rows.now areas.now places.now
        × Zeroed l shapes.old sheet.old placed.old sheet_entries.old placed_entries.old intervals.old positions.old
        sheet_firsts.old placed_firsts.old
        × (j.copies ≡ copies))
        × (2048 ≤ length places.now) }
    ensures { (j : Job) (l : Lent) → ReadInto j bytes.now at h rows.now areas.now places.now
        → Zeroed l shapes.old sheet.old placed.old sheet_entries.old
        placed_entries.old intervals.old positions.old sheet_firsts.old placed_firsts.old
        → j.copies ≡ copies
        → reply result positions.new ≡ reply_of (fill_job j order.now l) }
{
    if positions.len() / 6 < copies {
        return Err(Refusal::PositionRoom);
    }
    if !accounts::order::rearranged(order, rows, h.kinds as usize, copies) {
        return Err(Refusal::WrongOrder);
    }
    let n = order.len();
    let mut table = [0; 4096];
    table[..n].copy_from_slice(order);
    crate::plan_tables(
        bytes,
        at,
        h,
        0,
        &mut table[..n],
        rows,
        areas,
        places,
        shapes,
        sheet,
        placed,
        sheet_entries,
        placed_entries,
        intervals,
        positions,
        sheet_firsts,
        placed_firsts,
    )
}
