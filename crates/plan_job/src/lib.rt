// The whole plan of an accepted job: 30, then what is prepared (20, 21), then the copies in their
// order and the swap search (document 01, "30 is tested as soon as the job is accepted").
#![tactic(auto)]

pub mod fill_job;

ghost use Rattle.std.specs.Prelude.{true, ◌≡◌, ◌*◌, ◌≤◌, ◌<◌, length};
ghost use Rattle.job.specs.Jobs.{Job};
ghost use Rattle.filling.specs.Shapes.{planner_of};
ghost use Rattle.filling.specs.Rooms.{Lent};
ghost use Rattle.filling.specs.Start.{prepare_verdict};
ghost use Rattle.filling.specs.Order.{rearranged};
ghost use Rattle.nesting.specs.Nest.{nested, nest_job};
ghost use Rattle.swaps.specs.inner.Turns.{searched};
ghost use Rattle.report.specs.inner.Replies.{reply, reply_of, planned_when};
ghost use Rattle.report.specs.readied.inner.Zeroed.{Zeroed, ReadInto};

use filling::{Plan, Refusal};
use index::{Bucket, Entry};
use job::Header;

// The job's tables and rooms are prepared, then the copies in the given order are searched: n rounds.
fn plan_tables(
    bytes: &[u8],
    at: u32,
    h: Header,
    n: usize,
    order: &mut [usize],
    rows: &[u64],
    areas: &[f64],
    places: &[u32],
    shapes: &mut [f64],
    sheet: &mut [f64],
    placed: &mut [f64],
    sheet_entries: &mut [Entry],
    placed_entries: &mut [Entry],
    intervals: &mut [f64],
    positions: &mut [f64],
    sheet_firsts: &mut [Bucket],
    placed_firsts: &mut [Bucket],
) -> Result<Plan, Refusal>
    requires { ((j : Job) × (l : Lent) × ReadInto j bytes.now at h rows.now areas.now places.now
        × Zeroed l shapes.old sheet.old placed.old sheet_entries.old placed_entries.old intervals.old positions.old
        sheet_firsts.old placed_firsts.old
        × (rearranged j order.old ≡ true))
        × (2048 ≤ length places.now) × (6 * length order.old ≤ length positions.old) × (n < 4096) }
    ensures { (j : Job) (l : Lent) → ReadInto j bytes.now at h rows.now areas.now places.now
        → Zeroed l shapes.old sheet.old placed.old sheet_entries.old
        placed_entries.old intervals.old positions.old sheet_firsts.old placed_firsts.old
        → rearranged j order.old ≡ true
        → reply result positions.new ≡ reply_of (planned_when (prepare_verdict (planner_of j) l.rooms) l
        (nested j l (searched j l order.old n))) }
{
    let p = prepare::prepare(
        bytes,
        at,
        h,
        rows,
        places,
        shapes,
        sheet,
        sheet_entries,
        sheet_firsts,
    );
    p.verdict?;
    swaps::search_plan::search_plan(
        p.tables,
        h,
        n,
        order,
        rows,
        areas,
        shapes,
        sheet,
        sheet_entries,
        &p.sheet_starts,
        placed,
        placed_entries,
        intervals,
        positions,
        sheet_firsts,
        placed_firsts,
    )
}

// The job that was read into the tables, with so many copies. All rooms are zero. Only crates of
// ours call it.
pub fn nest_job(
    bytes: &[u8],
    at: u32,
    h: Header,
    copies: usize,
    rows: &[u64],
    areas: &[f64],
    places: &[u32],
    shapes: &mut [f64],
    sheet: &mut [f64],
    placed: &mut [f64],
    sheet_entries: &mut [Entry],
    placed_entries: &mut [Entry],
    intervals: &mut [f64],
    positions: &mut [f64],
    sheet_firsts: &mut [Bucket],
    placed_firsts: &mut [Bucket],
) -> Result<Plan, Refusal>
    requires { ((j : Job) × (l : Lent) × ReadInto j bytes.now at h rows.now areas.now places.now
        × Zeroed l shapes.old sheet.old placed.old sheet_entries.old placed_entries.old intervals.old positions.old
        sheet_firsts.old placed_firsts.old
        × (j.copies ≡ copies))
        × (2048 ≤ length places.now) }
    ensures { (j : Job) (l : Lent) → ReadInto j bytes.now at h rows.now areas.now places.now
        → Zeroed l shapes.old sheet.old placed.old sheet_entries.old
        placed_entries.old intervals.old positions.old sheet_firsts.old placed_firsts.old
        → j.copies ≡ copies
        → reply result positions.new ≡ reply_of (nest_job j l) }
{
    if positions.len() / 6 < copies {
        return Err(Refusal::PositionRoom);
    }
    let mut order = [0; 4096];
    let n = copy_order::copy_order(rows, areas, h.kinds as usize, &mut order);
    plan_tables(
        bytes,
        at,
        h,
        h.rounds as usize,
        &mut order[..n],
        rows,
        areas,
        places,
        shapes,
        sheet,
        placed,
        sheet_entries,
        placed_entries,
        intervals,
        positions,
        sheet_firsts,
        placed_firsts,
    )
}
