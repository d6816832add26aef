// The start (document 01: "a start (it leaves strips and entries for single steps)").
#![tactic(auto)]

pub mod ordered;
pub mod replies;

ghost use Rattle.std.specs.Prelude.{Ok, ◌≡◌, List, ◌≤◌, length, Float};
ghost use Rattle.job.specs.Jobs.{Job, accepted, read_job};
ghost use Rattle.job.specs.inner.Meaning.{job_read};
ghost use Rattle.filling.specs.Rooms.{Lent, position_capacity, lent_of};
ghost use Rattle.filling.specs.Start.{start_job, start_of};
ghost use Rattle.start.specs.ordered.inner.Beginning.{Cleared, Begun};
ghost use Rattle.start.specs.Answered.{answered};

use crate::replies::Started;
use filling::Refusal;
use index::{Bucket, Entry};
use job::Header;

// The start of a job that was read into the tables.
fn begin_job(
    bytes: &[u8],
    order: &[usize],
    positions: usize,
    h: Header,
    at: u32,
    copies: u64,
    rows: &[u64],
    places: &[u32],
    shapes: &mut [f64],
    sheet: &mut [f64],
    sheet_entries: &mut [Entry],
    sheet_firsts: &mut [Bucket],
) -> Started
    requires { (256 ≤ length rows.now) × (2048 ≤ length places.now) × ((areas : List Float) × (64 ≤ length areas)
        × (read_job bytes.now ≡ job_read (Ok (h, at, copies)) bytes.now rows.now areas places.now)) }
    ensures { (j : Job) (l : Lent) → read_job bytes.now ≡ accepted j → Cleared l shapes.old sheet.old
        sheet_entries.old sheet_firsts.old → position_capacity l.positions ≡ positions
        → Begun result (start_job j order.now l) shapes.new sheet.new sheet_entries.new sheet_firsts.new }
{
    let n = copies as usize;
    if positions < n {
        return replies::refused(Refusal::PositionRoom);
    }
    if !accounts::order::rearranged(order, rows, h.kinds as usize, n) {
        return replies::refused(Refusal::WrongOrder);
    }
    ordered::begin_order(
        bytes,
        order,
        h,
        at,
        rows,
        places,
        shapes,
        sheet,
        sheet_entries,
        sheet_firsts,
    )
}

// The start over zeroed rooms; the position room holds so many positions.
fn begin(
    bytes: &[u8],
    order: &[usize],
    positions: usize,
    shapes: &mut [f64],
    sheet: &mut [f64],
    sheet_entries: &mut [Entry],
    sheet_firsts: &mut [Bucket],
) -> Started
    ensures { (l : Lent) → Cleared l shapes.old sheet.old sheet_entries.old sheet_firsts.old
        → position_capacity l.positions ≡ positions → Begun result (start_of bytes.now order.now l) shapes.new sheet.new
        sheet_entries.new sheet_firsts.new }
{
    let j = job::read(bytes);
    let rows = j.rows;
    let places = j.places;
    match j.answer {
        Ok((h, at, copies)) => begin_job(
            bytes,
            order,
            positions,
            h,
            at,
            copies,
            &rows,
            &places,
            shapes,
            sheet,
            sheet_entries,
            sheet_firsts,
        ),
        Err(k) => replies::refused(Refusal::Job(k)),
    }
}

// The public operation `start`: the job's number, 30, 10, then what cannot be prepared; or the state
// before the first copy, with strips, entries and first buckets in the rooms and zeros elsewhere.
pub fn start(
    bytes: &[u8],
    order: &[usize],
    shapes: &mut [f64],
    sheet: &mut [f64],
    placed: &mut [f64],
    sheet_entries: &mut [Entry],
    placed_entries: &mut [Entry],
    sheet_firsts: &mut [Bucket],
    placed_firsts: &mut [Bucket],
    intervals: &mut [f64],
    positions: &mut [f64],
) -> Started
    ensures { answered result (lent_of shapes.new sheet.new placed.new sheet_entries.new
        placed_entries.new sheet_firsts.new placed_firsts.new intervals.new positions.new)
        ≡ start_of bytes.now order.now (lent_of shapes.old sheet.old placed.old
        sheet_entries.old placed_entries.old sheet_firsts.old placed_firsts.old
        intervals.old positions.old) }
{
    let held = positions.len() / 6;
    shapes.fill(0.0);
    sheet.fill(0.0);
    placed.fill(0.0);
    sheet_entries.fill(0);
    placed_entries.fill(0);
    sheet_firsts.fill(0);
    placed_firsts.fill(0);
    intervals.fill(0.0);
    positions.fill(0.0);
    begin(
        bytes,
        order,
        held,
        shapes,
        sheet,
        sheet_entries,
        sheet_firsts,
    )
}
