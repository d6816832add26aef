// Replays stored lists of placed panels (document 02, W6). stdin has a container of records (oracle/README.md). One
// without a label is a job; any other is a list for the last job: the slots of the seven lent rooms in four
// bytes each, then its numbers in eight bytes each. For each a line `job` with its label is printed, then
// `judged` with the refusal's number or 0 and the line that it speaks of, and ` left` where a lent slot is
// not zero after the call. The file stdout holds the oracle's answers (oracle/samples/layout.py), never
// those of this code.
#![tactic(auto)]

use index::{Bucket, Entry};
use replay::slot::Slot;
use replay::{edit, lend, records, show};

// Whether every slot is zero.
fn is_clear<T: Slot>(room: &[T]) -> bool {
    room.iter().all(|x| x.bits() == 0)
}

// Prints what the list is judged in these rooms, and whether every slot is zero after it.
fn judge(
    bytes: &[u8],
    given: &[u64],
    shapes: &mut [f64],
    sheet: &mut [f64],
    placed: &mut [f64],
    sheet_entries: &mut [Entry],
    placed_entries: &mut [Entry],
    sheet_firsts: &mut [Bucket],
    placed_firsts: &mut [Bucket],
) {
    let r = judge_layout::judge_layout(
        bytes,
        given,
        shapes,
        sheet,
        placed,
        sheet_entries,
        placed_entries,
        sheet_firsts,
        placed_firsts,
    );
    io::write_all(1, b"judged ");
    show::verdict(r.verdict);
    show::number(r.line);
    let strips = is_clear(shapes) && is_clear(sheet) && is_clear(placed);
    let entries = is_clear(sheet_entries) && is_clear(placed_entries);
    let firsts = is_clear(sheet_firsts) && is_clear(placed_firsts);
    if !(strips && entries && firsts) {
        io::write_all(1, b" left");
    }
    show::end();
}

// The same in rooms of the lengths that the head says; no slot is zero before.
fn judge_in(bytes: &[u8], given: &[u64], head: &[u8], shapes: &mut [f64], placed: &mut [f64]) {
    let mut sheet = [1.0; 8190];
    let mut sheet_entries: [Entry; 16500] = [1; 16500];
    let mut placed_entries: [Entry; 68000] = [1; 68000];
    let mut sheet_firsts: [Bucket; 1400] = [1; 1400];
    let mut placed_firsts: [Bucket; 65540] = [1; 65540];
    judge(
        bytes,
        given,
        lend::lent_mut(shapes, records::four_at(head, 0)),
        lend::lent_mut(&mut sheet, records::four_at(head, 1)),
        lend::lent_mut(placed, records::four_at(head, 2)),
        lend::lent_mut(&mut sheet_entries, records::four_at(head, 3)),
        lend::lent_mut(&mut placed_entries, records::four_at(head, 4)),
        lend::lent_mut(&mut sheet_firsts, records::four_at(head, 5)),
        lend::lent_mut(&mut placed_firsts, records::four_at(head, 6)),
    );
}

// Prints the answer to a list for this job.
fn answer(
    record: &[u8],
    job: &[u8],
    numbers: &mut [u64],
    shapes: &mut [f64],
    placed: &mut [f64],
) -> Option<()> {
    let (head, list) = record.split_at_checked(28)?;
    let given = lend::lent_mut(numbers, list.len() / 8);
    records::spread(list, 0, given);
    edit::spoil(lend::lent_mut(shapes, records::four_at(head, 0)), 0, 1);
    edit::spoil(lend::lent_mut(placed, records::four_at(head, 2)), 0, 2);
    judge_in(job, given, head, shapes, placed);
    Some(())
}

// The next record, where there is one: a job that is kept, of `size` bytes, or a list that is answered.
fn replay(
    size: &mut usize,
    room: &mut [u8],
    job: &mut [u8],
    numbers: &mut [u64],
    shapes: &mut [f64],
    placed: &mut [f64],
) -> Option<()> {
    let label = records::read_label(room)?;
    if label.is_empty() {
        *size = records::read_job(job)?.len();
        return Some(());
    }
    records::print_label(label);
    let record = records::read_job(room)?;
    answer(record, lend::lent(job, *size), numbers, shapes, placed)
}

// The long rooms have 65,800 and 65,540 strips. All rooms together must leave room on the stack for the call.
fn main() {
    let mut size = 0;
    let mut room = [0u8; 131200];
    let mut job = [0u8; 20480];
    let mut numbers = [0u64; 16400];
    let mut shapes = [1.0; 394800];
    let mut placed = [1.0; 393240];
    records::replay_all(|| {
        replay(
            &mut size,
            &mut room,
            &mut job,
            &mut numbers,
            &mut shapes,
            &mut placed,
        )
    });
}
