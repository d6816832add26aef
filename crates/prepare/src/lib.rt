// What an accepted job has before its filling: the sheet's strips, entries and first buckets, the
// shapes' strips, bounds and parts (document 01, "Then come the sheet's strips (20) and entries (21), the shapes'
// strips by kind and orientation, apart before inset (20)").
#![tactic(auto)]

pub mod sheet;

ghost use Rattle.std.specs.Prelude.{Err, ◌≡◌, ◌≤◌, length};
ghost use Rattle.job.specs.Jobs.{Job};
ghost use Rattle.filling.specs.Shapes.{planner_of};
ghost use Rattle.prepare.specs.inner.Ready.{FromTables, given, PreparedIs};

use filling::{Refusal, Tables};
use index::{Bucket, Entry};
use job::Header;
use strips::Rect;

// What is prepared: accepted or the refusal; the tables; where the sheet's buckets start.
#[derive(Clone, Copy)]
pub struct Prepared {
    pub verdict: Result<(), Refusal>,
    pub tables: Tables,
    pub sheet_starts: [usize; 513],
}

// Nothing is prepared.
fn refused(k: Refusal) -> Prepared
    ensures { result.verdict ≡ Err k }
{
    Prepared {
        verdict: Err(k),
        tables: Tables {
            resolution: 0.0,
            sheet_bounds: Rect {
                left: 0.0,
                bottom: 0.0,
                right: 0.0,
                top: 0.0,
            },
            sheet_strips: 0,
            apart_strips: 0,
            inset_bounds: [0.0; 4096],
            parts: [0; 4096],
        },
        sheet_starts: [0; 513],
    }
}

// Prepares the job whose sheet begins at the bit position `at` and whose kinds `job::read` laid into
// `rows` and `places`.
pub fn prepare(
    bytes: &[u8],
    at: u32,
    h: Header,
    rows: &[u64],
    places: &[u32],
    shapes: &mut [f64],
    sheet: &mut [f64],
    sheet_entries: &mut [Entry],
    sheet_firsts: &mut [Bucket],
) -> Prepared
    requires { (256 ≤ length rows.now) × (2048 ≤ length places.now) }
    ensures { (j : Job) → FromTables bytes.now rows.now places.now at h.kinds j → j.header ≡ h
        → PreparedIs result (planner_of j) (given shapes.old sheet.old sheet_entries.old
        sheet_firsts.old) shapes.new sheet.new sheet_entries.new sheet_firsts.new }
{
    let mut sheet_starts = [0usize; 513];
    let mut inset_bounds = [0.0; 4096];
    let mut parts = [0usize; 4096];
    let f = job::frame_of(h);
    let (sheet_bounds, sheet_strips) = match sheet::lay_sheet(
        bytes,
        at,
        sheet,
        sheet_entries,
        &mut sheet_starts,
        sheet_firsts,
        f,
    ) {
        Ok(laid) => laid,
        Err(e) => return refused(Refusal::from(e)),
    };
    let Some((apart_strips, _)) = shapes::lay_shapes(
        bytes,
        rows,
        places,
        h.kinds as usize,
        shapes,
        &mut inset_bounds,
        &mut parts,
        f,
    ) else {
        return refused(Refusal::StripRoom);
    };
    Prepared {
        verdict: Ok(()),
        tables: Tables {
            resolution: h.resolution,
            sheet_bounds,
            sheet_strips,
            apart_strips,
            inset_bounds,
            parts,
        },
        sheet_starts,
    }
}
