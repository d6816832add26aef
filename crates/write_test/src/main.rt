// Replays stored jobs that are written (document 02, W9). stdin has a container of records (oracle/README.md). A
// record begins with six numbers of four bytes each: 0 where tables follow, 1 where a job's bytes do; the slots
// of rows, areas, counts and coordinates; the bytes of the output room. Tables are the header's seven numbers and
// the four tables, eight bytes to a number. For each record a line `job` with its label is printed, then `wrote`
// with the refusal's number or 0, the bytes of the job, and the hash of the whole output room, in which no byte is
// zero before the call. A job's bytes are first read into the four rooms, which hold garbage: `read` with the
// number, how many counts and coordinates there are, and the hash of the header and of all four rooms; where they
// are refused, nothing is written. The file stdout holds the oracle's answers (oracle/samples/write.py), never
// those of this code.
#![tactic(auto)]

use job::Header;
use job_bits::JobError;
use replay::slot::Slot;
use replay::{edit, hash, lend, records, show};

// The header, after the six numbers of four bytes.
fn header_of(from: &[u8]) -> Header {
    Header {
        version: records::eight_at(from, 3),
        corner: records::eight_at(from, 4),
        axis: records::eight_at(from, 5),
        kinds: records::eight_at(from, 6),
        rounds: records::eight_at(from, 7),
        seed: records::eight_at(from, 8),
        resolution: f64::of_bits(records::eight_at(from, 9)),
    }
}

// What a refused job has for a header.
const NO_HEADER: Header = Header {
    version: 0,
    corner: 0,
    axis: 0,
    kinds: 0,
    rounds: 0,
    seed: 0,
    resolution: 0.0,
};

fn hash_header(start: u64, header: Header) -> u64 {
    let h = hash::mix(start, header.version);
    let h = hash::mix(h, header.corner);
    let h = hash::mix(h, header.axis);
    let h = hash::mix(h, header.kinds);
    let h = hash::mix(h, header.rounds);
    let h = hash::mix(h, header.seed);
    hash::mix(h, header.resolution)
}

// Writes a job into a room of garbage, and prints the answer.
fn write(
    header: Header,
    rows: &[u64],
    areas: &[f64],
    counts: &[u64],
    coordinates: &[f64],
    out: &mut [u8],
) {
    out.fill(165);
    let r = write_job::write_job(header, rows, areas, counts, coordinates, out);
    io::write_all(1, b"wrote ");
    io::print_decimal(1, job_bits::reply_number(r));
    show::number(r.unwrap_or(0));
    show::hash_of(out);
    show::end();
}

// The tables of a record, and what is written of them.
fn write_given(
    record: &[u8],
    rows: &mut [u64],
    areas: &mut [f64],
    counts: &mut [u64],
    coordinates: &mut [f64],
    out: &mut [u8],
) {
    let a = 10 + rows.len();
    let b = a + areas.len();
    let c = b + counts.len();
    records::spread(record, 10, rows);
    records::spread(record, a, areas);
    records::spread(record, b, counts);
    records::spread(record, c, coordinates);
    write(header_of(record), rows, areas, counts, coordinates, out);
}

// Prints what was read: its number, counts and coordinates, and the hash of all that there is.
fn tell(
    number: u64,
    header: Header,
    counted: usize,
    measured: usize,
    rows: &[u64],
    areas: &[f64],
    counts: &[u64],
    coordinates: &[f64],
) {
    let n = 7 + rows.len() + areas.len() + counts.len() + coordinates.len();
    let h = hash_header(n as u64, header);
    let h = hash::slots(h, rows);
    let h = hash::slots(h, areas);
    let h = hash::slots(h, counts);
    let h = hash::slots(h, coordinates);
    io::write_all(1, b"read ");
    io::print_decimal(1, number);
    show::number(counted);
    show::number(measured);
    show::word(h);
    show::end();
}

// Prints what was read, and writes the job again.
fn write_read(
    r: Result<(Header, usize, usize), JobError>,
    rows: &[u64],
    areas: &[f64],
    counts: &[u64],
    coordinates: &[f64],
    out: &mut [u8],
) {
    match r {
        Ok((header, n, m)) => {
            tell(0, header, n, m, rows, areas, counts, coordinates);
            write(header, rows, areas, counts, coordinates, out);
        }
        Err(_) => tell(
            job_bits::reply_number(r),
            NO_HEADER,
            0,
            0,
            rows,
            areas,
            counts,
            coordinates,
        ),
    }
}

// Garbage in the rooms for tables.
fn spoil_tables(rows: &mut [u64], areas: &mut [f64], counts: &mut [u64], coordinates: &mut [f64]) {
    rows.fill(1);
    edit::spoil(areas, 0, 2);
    counts.fill(3);
    edit::spoil(coordinates, 0, 4);
}

// Reads a job into rooms of garbage, and writes it again.
fn read_again(
    job: &[u8],
    rows: &mut [u64],
    areas: &mut [f64],
    counts: &mut [u64],
    coordinates: &mut [f64],
    out: &mut [u8],
) {
    spoil_tables(rows, areas, counts, coordinates);
    let r = read_tables::read_tables(job, rows, areas, counts, coordinates);
    write_read(r, rows, areas, counts, coordinates, out);
}

// The answer to a record in rooms that it asks for.
fn answer_in(
    record: &[u8],
    rows: &mut [u64],
    areas: &mut [f64],
    counts: &mut [u64],
    coordinates: &mut [f64],
    out: &mut [u8],
) {
    if records::four_at(record, 0) == 0 {
        write_given(record, rows, areas, counts, coordinates, out);
        return;
    }
    if 24 <= record.len() {
        read_again(&record[24..], rows, areas, counts, coordinates, out);
    }
}

// Prints the answer to the record that the first n bytes are, in the rooms that are lent.
fn answer(
    room: &[u8],
    n: usize,
    rows: &mut [u64],
    areas: &mut [f64],
    counts: &mut [u64],
    coordinates: &mut [f64],
    out: &mut [u8],
) {
    answer_in(
        lend::lent(room, n),
        lend::lent_mut(rows, records::four_at(room, 1)),
        lend::lent_mut(areas, records::four_at(room, 2)),
        lend::lent_mut(counts, records::four_at(room, 3)),
        lend::lent_mut(coordinates, records::four_at(room, 4)),
        lend::lent_mut(out, records::four_at(room, 5)),
    );
}

// Rooms for a job of 64 kinds with 16 orientations each.
fn main() {
    let mut room = [0u8; 140000];
    let mut rows = [0u64; 300];
    let mut areas = [0.0; 80];
    let mut counts = [0u64; 4300];
    let mut coordinates = [0.0; 16400];
    let mut out = [0u8; 140000];
    records::replay_all(|| {
        let n = records::next_job(&mut room)?.len();
        answer(
            &room,
            n,
            &mut rows,
            &mut areas,
            &mut counts,
            &mut coordinates,
            &mut out,
        );
        Some(())
    });
}
