// The records of a container of jobs (oracle/README.md) on standard input, for test programs: a
// label's length in one byte, the label, a job's length in four bytes, most significant first, the
// job.
ghost use Rattle.std.specs.Prelude.{◌≤◌};

use crate::slot::Slot;

// Number i of four bytes each; 0 where there is none.
pub fn four_at(from: &[u8], i: usize) -> usize {
    from.as_chunks::<4>()
        .0
        .get(i)
        .map_or(0, |b| u32::from_be_bytes(*b) as usize)
}

// Number i of eight bytes each; 0 where there is none.
pub fn eight_at(from: &[u8], i: usize) -> u64 {
    from.as_chunks::<8>()
        .0
        .get(i)
        .map_or(0, |b| u64::from_be_bytes(*b))
}

// Numbers of eight bytes each, after the first so many.
pub fn spread<T: Slot>(from: &[u8], first: usize, to: &mut [T]) {
    for (i, x) in to.iter_mut().enumerate() {
        *x = T::of_bits(first.checked_add(i).map_or(0, |k| eight_at(from, k)));
    }
}

// The smaller of two.
pub fn at_most(n: usize, most: usize) -> usize
    ensures { result ≤ most }
{
    n.min(most)
}

// The next n bytes; none where they do not fit or the input ends.
pub fn read_into(room: &mut [u8], n: usize) -> Option<&[u8]> {
    let part = room.get_mut(..n)?;
    if io::read_full(0, part) < n {
        return None;
    }
    Some(part)
}

// The next record's label.
pub fn read_label(room: &mut [u8]) -> Option<&[u8]> {
    let mut size = [0u8; 1];
    if io::read_full(0, &mut size) < 1 {
        return None;
    }
    read_into(room, usize::from(size[0]))
}

// The job after a label.
pub fn read_job(room: &mut [u8]) -> Option<&[u8]> {
    let mut size = [0u8; 4];
    if io::read_full(0, &mut size) < 4 {
        return None;
    }
    read_into(room, u32::from_be_bytes(size) as usize)
}

// Writes a line `job` with a label.
pub fn print_label(label: &[u8]) {
    io::write_all(1, b"job ");
    io::write_all(1, label);
    io::write_all(1, b"\n");
}

// The next record's job, after a line with its label.
pub fn next_job(room: &mut [u8]) -> Option<&[u8]> {
    print_label(read_label(room)?);
    read_job(room)
}

// One record after another, until there is none more.
pub fn replay_all<F: FnMut() -> Option<()>>(mut replay: F)
    requires { F.IsAlwaysCallable replay }
{
    for _ in 0..1000000 {
        if replay().is_none() {
            break;
        }
    }
}

// The same, where each record is a line with its label and the answer to its job.
pub fn answer_all<F: FnMut(&[u8])>(room: &mut [u8], mut answer: F)
    requires { F.IsAlwaysCallable answer }
{
    for _ in 0..1000000 {
        let Some(job) = next_job(room) else {
            break;
        };
        answer(job);
    }
}
