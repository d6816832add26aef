// A job's bytes to its tables (document 02, W9: "The office edits jobs"): four numbers and the area
// of each kind, and the counts and coordinates of all sets, in lent rooms.
#![tactic(auto)]

mod sets;
pub mod stores;

ghost use Rattle.std.specs.Prelude.{Ok, ◌≡◌, ℕ, ◌+◌, ◌*◌, ◌-◌, ◌≤◌, ◌<◌, ◌&&◌, List, length, leb, Float};
ghost use Rattle.kinds.specs.inner.Tables.{tabulate, kind_at};
ghost use Rattle.job.specs.Jobs.{read_job};
ghost use Rattle.job.specs.inner.Meaning.{job_read};
ghost use Rattle.job_bits.specs.JobTables.{rows_of};
ghost use Rattle.read_tables.specs.Tabled.{tabled};
ghost use Rattle.read_tables.specs.inner.Laying.{Stored, row_at, Finished, left_of};

use crate::sets::Filled;
use job::Header;
use job_bits::JobError;

// The four numbers of kind k as the job has them: fill 1 or 0, priority in 32 bits.
fn put_row(out: &mut [u64], rows: &[u64], k: usize)
    requires { (k < 64) × (256 ≤ length rows.now) }
    ensures { Stored out.old (4 * k) (row_at rows.now k) out.new (4 * k + 4) }
{
    let j = 4 * k;
    bit_writer::store(out, j, rows[j]);
    bit_writer::store(out, j + 1, u64::from(rows[j + 1] == 1));
    bit_writer::store(out, j + 2, rows[j + 2].min(4294967295));
    bit_writer::store(out, j + 3, rows[j + 3]);
}

// The four numbers of each of n kinds.
fn put_rows(out: &mut [u64], rows: &[u64], n: usize)
    requires { (n ≤ 64) × (256 ≤ length rows.now) }
    ensures { (bytes : List ℕ) (areas : List Float) (places : List ℕ)
        → Stored out.old 0 (rows_of (tabulate (kind_at bytes rows.now areas places) n)) out.new (4 * n) }
{
    for k in 0..n {
        put_row(out, rows, k);
    }
}

// Whether the tables of n kinds fit their rooms.
fn all_fit(
    rows: &[u64],
    areas: &[f64],
    counts: &[u64],
    coordinates: &[f64],
    n: usize,
    w: Filled,
) -> bool
    requires { n ≤ 64 }
    ensures { result ≡ (leb (4 * n) (length rows.now) && leb n (length areas.now)
        && leb w.counts (length counts.now) && leb w.coordinates (length coordinates.now)) }
{
    4 * n <= rows.len()
        && n <= areas.len()
        && w.counts <= counts.len()
        && w.coordinates <= coordinates.len()
}

// Zeros behind the tables, if no room is too short.
fn finish(
    rows: &mut [u64],
    areas: &mut [f64],
    counts: &mut [u64],
    coordinates: &mut [f64],
    h: Header,
    n: usize,
    w: Filled,
) -> Result<(Header, usize, usize), JobError>
    requires { n ≤ 64 }
    ensures { Finished h n w rows.old areas.old counts.old coordinates.old
        result rows.new areas.new counts.new coordinates.new }
{
    if !all_fit(rows, areas, counts, coordinates, n, w) {
        return Err(JobError::ShortRoom);
    }
    rows[4 * n..].fill(0);
    areas[n..].fill(0.0);
    counts[w.counts..].fill(0);
    coordinates[w.coordinates..].fill(0.0);
    Ok((h, w.counts, w.coordinates))
}

// The tables of the job that the bytes are, with zeros behind them; or why there are none.
fn put_job(
    bytes: &[u8],
    rows: &mut [u64],
    areas: &mut [f64],
    counts: &mut [u64],
    coordinates: &mut [f64],
) -> Result<(Header, usize, usize), JobError>
    ensures { left_of result rows.new areas.new counts.new coordinates.new
        ≡ tabled (read_job bytes.now) (length rows.old) (length areas.old) (length counts.old)
        (length coordinates.old) }
{
    let j = job::read(bytes);
    let (h, sheet, _) = j.answer?;
    let n = h.kinds as usize;
    put_rows(rows, &j.rows, n);
    stores::put_doubles(areas, 0, &j.areas, n);
    let w = sets::put_sets(bytes, sheet, &j.rows, &j.places, n, counts, coordinates);
    finish(rows, areas, counts, coordinates, h, n, w)
}

// The tables of the job that the bytes are, with zeros behind them; or why there are none, and zeros.
// What is told of them: the job's header, how many counts and how many coordinates it has.
pub fn read_tables(
    bytes: &[u8],
    rows: &mut [u64],
    areas: &mut [f64],
    counts: &mut [u64],
    coordinates: &mut [f64],
) -> Result<(Header, usize, usize), JobError>
    ensures { record { reply = result; rows = rows.new; areas = areas.new; counts = counts.new; coordinates = coordinates.new }
        ≡ tabled (read_job bytes.now) (length rows.old) (length areas.old) (length counts.old)
        (length coordinates.old) }
{
    let reply = put_job(bytes, rows, areas, counts, coordinates);
    if reply.is_err() {
        rows.fill(0);
        areas.fill(0.0);
        counts.fill(0);
        coordinates.fill(0.0);
    }
    reply
}
