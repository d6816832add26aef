// Replays stored jobs up to their swap search: stdin has a container of jobs (oracle/README.md), and
// for each a line `job` with its label is printed, then the final order, the improvements and the
// state of the draws, or `no` and the number of the refusal. The file stdout holds the oracle's
// answers (oracle/samples/swaps.py); oracle/compare/swaps.sh compares many jobs.
#![tactic(auto)]

ghost use Rattle.std.specs.Prelude.{◌≡◌, ◌*◌, ◌≤◌, length};
ghost use Rattle.job.specs.Jobs.{Job};
ghost use Rattle.filling_laws.specs.fill_laws.inner.Prepared.{Prepared, SheetFirsts};
ghost use Rattle.report.specs.readied.inner.Zeroed.{ReadInto};
ghost use Rattle.swaps.specs.search_plan.inner.Tabled.{given_by};

use better::Best;
use filling::{Refusal, Tables};
use index::{Bucket, Entry};
use job::Header;

fn print_refusal(r: Refusal) {
    io::write_all(1, b"no ");
    io::print_decimal(1, accounts::verdicts::verdict_number(Err(r)));
    io::write_all(1, b"\n");
}

// The kinds of the first n copies.
fn print_copies(order: &[usize], n: usize) {
    for kind in order.iter().take(n) {
        io::write_all(1, b" ");
        io::print_decimal(1, *kind as u64);
    }
}

fn print_kept(r: Result<Best, Refusal>, order: &[usize], n: usize) {
    match r {
        Ok(b) => {
            io::write_all(1, b"order");
            print_copies(order, n);
            io::write_all(1, b"\nimprovements ");
            io::print_decimal(1, b.improvements as u64);
            io::write_all(1, b"\nstate ");
            io::print_hex(1, b.random, 16);
            io::write_all(1, b"\n");
        }
        Err(k) => print_refusal(k),
    }
}

// The copies in their order, and what their swap search ends with.
fn search(
    tables: Tables,
    h: Header,
    rows: &[u64],
    areas: &[f64],
    shapes: &[f64],
    sheet: &[f64],
    sheet_entries: &[Entry],
    sheet_starts: &[usize],
    sheet_firsts: &[Bucket],
)
    requires { ((j : Job) × Prepared j (given_by tables rows.now areas.now shapes.now sheet.now sheet_entries.now sheet_starts.now)
        × (j.header ≡ h) × (length j.kinds ≡ h.kinds))
        × (6 * tables.sheet_strips ≤ length sheet.now) × (6 * tables.apart_strips ≤ length shapes.now)
        × SheetFirsts (given_by tables rows.now areas.now shapes.now sheet.now sheet_entries.now sheet_starts.now) sheet_firsts.now }
{
    let mut placed = [0.0; 8190];
    let mut placed_entries = [0u16; 16384];
    let mut placed_firsts = [0u16; 1365];
    let mut intervals = [0.0; 8192];
    let mut tracks = swaps::search_plan::two_tracks();
    let mut spots = swaps::search_plan::two_spots();
    let mut order = [0usize; 4096];
    let n = copy_order::copy_order(rows, areas, h.kinds as usize, &mut order);
    let r = swaps::search_plan::search(
        tables,
        h.seed,
        h.rounds as usize,
        &mut order[..n],
        rows,
        areas,
        shapes,
        sheet,
        sheet_entries,
        sheet_starts,
        &mut placed,
        &mut placed_entries,
        &mut intervals,
        &mut tracks,
        &mut spots,
        sheet_firsts,
        &mut placed_firsts,
    );
    print_kept(r, &order, n);
}

// What is prepared of the job in the tables, with the rooms that `plan` lends, then its search.
fn prepare_job(bytes: &[u8], at: u32, h: Header, rows: &[u64], areas: &[f64], places: &[u32])
    requires { ((j : Job) × ReadInto j bytes.now at h rows.now areas.now places.now) × (2048 ≤ length places.now) }
{
    let mut shapes = [0.0; 8190];
    let mut sheet = [0.0; 8190];
    let mut sheet_entries = [0u16; 16384];
    let mut sheet_firsts = [0u16; 1365];
    let p = prepare::prepare(
        bytes,
        at,
        h,
        rows,
        places,
        &mut shapes,
        &mut sheet,
        &mut sheet_entries,
        &mut sheet_firsts,
    );
    match p.verdict {
        Ok(()) => search(
            p.tables,
            h,
            rows,
            areas,
            &shapes,
            &sheet,
            &sheet_entries,
            &p.sheet_starts,
            &sheet_firsts,
        ),
        Err(k) => print_refusal(k),
    }
}

// Answers the job that the bytes are.
fn answer_job(bytes: &[u8]) {
    let j = job::read(bytes);
    match j.answer {
        Ok((h, at, _)) => prepare_job(bytes, at, h, &j.rows, &j.areas, &j.places),
        Err(k) => print_refusal(Refusal::Job(k)),
    }
}

fn main() {
    let mut room = [0u8; 131072];
    replay::records::answer_all(&mut room, |job| answer_job(job));
}
