// Replays stored jobs by the functions that C may call, in rooms for more strips than entries can number.
// stdin has a container of records (oracle/README.md): a label, then one byte for the room that is long
// (0 shapes, 1 sheet, 2 placed), its slots and those of each entry room in four bytes each, and the
// job; a byte 3 asks for a filling, and then the number of its copies, all of kind 0, stands for the
// slots. For each a line `job` with its label is printed, then its plan, or the filling's number and
// positions. The file stdout holds the oracle's answers (oracle/samples/wide.py), never those of this code.
#![tactic(auto)]

use index::{Bucket, Entry};
use replay::{lend, records, show};

// Prints the job's plan in these strip rooms, with so many entries each.
fn print_with(
    bytes: &[u8],
    entries: usize,
    shapes: &mut [f64],
    sheet: &mut [f64],
    placed: &mut [f64],
) {
    let mut sheet_entries: [Entry; 132000] = [1; 132000];
    let mut placed_entries: [Entry; 132000] = [1; 132000];
    let mut sheet_firsts: [Bucket; 66666] = [1; 66666];
    let mut placed_firsts: [Bucket; 66666] = [1; 66666];
    let mut intervals = [1.0; 8192];
    let mut positions = [1.0; 24576];
    let mut out = program::print_plan::buffer();
    let n = plan_exports::panel_nest(
        bytes,
        shapes,
        sheet,
        placed,
        lend::lent_mut(&mut sheet_entries, entries),
        lend::lent_mut(&mut placed_entries, entries),
        &mut sheet_firsts,
        &mut placed_firsts,
        &mut intervals,
        &mut positions,
        &mut out,
    );
    program::print_plan::write_from(&out, n);
}

// Prints the number of a filling of so many copies of kind 0, at most eight, and what it leaves in room for
// eight positions, with so many entries each.
fn print_filling(
    bytes: &[u8],
    copies: usize,
    entries: usize,
    shapes: &mut [f64],
    sheet: &mut [f64],
    placed: &mut [f64],
) {
    let order = [0usize; 8];
    let mut sheet_entries: [Entry; 132000] = [1; 132000];
    let mut placed_entries: [Entry; 132000] = [1; 132000];
    let mut sheet_firsts: [Bucket; 66666] = [1; 66666];
    let mut placed_firsts: [Bucket; 66666] = [1; 66666];
    let mut intervals = [1.0; 8192];
    let mut positions = [1.0; 48];
    let number = plan_exports::given::panel_fill(
        bytes,
        lend::lent(&order, copies),
        shapes,
        sheet,
        placed,
        lend::lent_mut(&mut sheet_entries, entries),
        lend::lent_mut(&mut placed_entries, entries),
        &mut sheet_firsts,
        &mut placed_firsts,
        &mut intervals,
        &mut positions,
    );
    io::write_all(1, b"fill ");
    io::print_decimal(1, number);
    io::write_all(1, b"\n");
    show::slots(6, &positions);
}

// The same with the long room as the room `which`, lent with so many slots; or a filling.
fn print_in(which: u8, slots: usize, entries: usize, bytes: &[u8], long: &mut [f64]) {
    let mut a = [1.0; 8190];
    let mut b = [1.0; 8190];
    match which {
        0 => print_with(bytes, entries, lend::lent_mut(long, slots), &mut a, &mut b),
        1 => print_with(bytes, entries, &mut a, lend::lent_mut(long, slots), &mut b),
        2 => print_with(bytes, entries, &mut a, &mut b, lend::lent_mut(long, slots)),
        _ => print_filling(bytes, slots, entries, &mut a, &mut b, long),
    }
}

// Prints the answer to a record; none to one that is too short, which ends the run.
fn answer(record: &[u8], long: &mut [f64]) -> Option<()> {
    let (head, job) = record.split_first_chunk::<9>()?;
    let slots = records::four_at(&head[1..], 0);
    let entries = records::four_at(&head[1..], 1);
    print_in(head[0], slots, entries, job, long);
    Some(())
}

// The long room has 66,666 strips. At most 1,000 records are answered.
fn main() {
    let mut room = [0u8; 16384];
    let mut long = [1.0; 400000];
    for _ in 0..1000 {
        let Some(record) = records::next_job(&mut room) else {
            break;
        };
        if answer(record, &mut long).is_none() {
            break;
        }
    }
}
