// The start of a job (document 01) with an order that is right: what is prepared, and the state before
// the first copy.
ghost use Rattle.std.specs.Prelude.{◌≡◌, ◌≤◌, length};
ghost use Rattle.job.specs.Jobs.{Job};
ghost use Rattle.filling.specs.Rooms.{Lent};
ghost use Rattle.filling.specs.Shapes.{planner_of};
ghost use Rattle.filling.specs.Start.{start_verdict, start_job, prepare_verdict};
ghost use Rattle.prepare.specs.inner.Ready.{FromTables};
ghost use Rattle.start.specs.ordered.inner.Beginning.{Cleared, Begun};

use crate::replies;
use crate::replies::Started;
use index::{Bucket, Entry};
use job::Header;

// The start with an order that is a rearrangement of the job's copies, over zeroed rooms. Only crates
// of ours call it.
pub fn begin_order(
    bytes: &[u8],
    order: &[usize],
    h: Header,
    at: u32,
    rows: &[u64],
    places: &[u32],
    shapes: &mut [f64],
    sheet: &mut [f64],
    sheet_entries: &mut [Entry],
    sheet_firsts: &mut [Bucket],
) -> Started
    requires { (length order.now ≤ 4096) × (256 ≤ length rows.now) × (2048 ≤ length places.now) }
    ensures { (j : Job) (l : Lent) → FromTables bytes.now rows.now places.now at h.kinds j → j.header ≡ h
        → Cleared l shapes.old sheet.old sheet_entries.old sheet_firsts.old
        → start_verdict j order.now l ≡ prepare_verdict (planner_of j) l.rooms
        → Begun result (start_job j order.now l) shapes.new sheet.new sheet_entries.new sheet_firsts.new }
{
    let p = prepare::prepare(
        bytes,
        at,
        h,
        rows,
        places,
        shapes,
        sheet,
        sheet_entries,
        sheet_firsts,
    );
    match p.verdict {
        Ok(()) => {
            let mut table = [0usize; 4096];
            table[..order.len()].copy_from_slice(order);
            replies::accepted(p.tables, table)
        }
        Err(k) => {
            shapes.fill(0.0);
            sheet.fill(0.0);
            sheet_entries.fill(0);
            sheet_firsts.fill(0);
            replies::refused(k)
        }
    }
}
