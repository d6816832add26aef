// The counts and coordinates of a job's sets, in its order. What does not fit a room is only counted.
// The functions are called by this crate alone.
ghost use Rattle.std.specs.Prelude.{◌≡◌, ℕ, ◌+◌, ◌*◌, ◌≤◌, ◌<◌, List, ◌∷◌, length, get_or, take, Float};
ghost use Rattle.kinds.specs.sets.inner.Answers.{set_at};
ghost use Rattle.kinds.specs.inner.Tables.{tabulate, orientation_at, orientations_of, kind_at};
ghost use Rattle.job.specs.Jobs.{Job};
ghost use Rattle.job_bits.specs.JobTables.{loop_counts, set_counts, orientation_counts, orientation_points, kind_counts, kind_points, counts_of, coordinates_of};
ghost use Rattle.read_tables.specs.inner.Laying.{Stored, Ready, Near, Put, PutKinds};

use crate::stores;

// How many counts and coordinates there are so far.
#[derive(Clone, Copy)]
pub struct Filled {
    pub counts: usize,
    pub coordinates: usize,
}

// The points of each of n loops that end so.
fn put_loops(counts: &mut [u64], at: usize, ends: &[usize], n: usize)
    requires { (n ≤ length ends.now) × (n ≤ 64) × (at ≤ 1000000000000) }
    ensures { Stored counts.old at (loop_counts 0 (take n ends.now)) counts.new (at + n) }
{
    let mut before = 0;
    for i in 0..n {
        bit_writer::store(counts, at + i, ends[i].saturating_sub(before) as u64);
        before = ends[i];
    }
}

// The number of loops, and the points of each.
fn put_counts(counts: &mut [u64], at: usize, ends: &[usize], n: usize) -> usize
    requires { (n ≤ length ends.now) × (n ≤ 64) × (at < 1000000000000) }
    ensures { Stored counts.old at (n ∷ loop_counts 0 (take n ends.now)) counts.new result × (result ≤ at + 65) }
{
    bit_writer::store(counts, at, n as u64);
    put_loops(counts, at + 1, ends, n);
    at + 1 + n
}

// The set at a place of the bytes. The rooms take it.
fn put_set(
    bytes: &[u8],
    place: u32,
    room: &mut [f64],
    ends: &mut [usize],
    counts: &mut [u64],
    coordinates: &mut [f64],
    w: Filled,
) -> Filled
    requires { Ready w 65 1024 × (1024 ≤ length room.old) × (64 ≤ length ends.old) }
    ensures { Put w counts.old coordinates.old (set_counts (set_at bytes.now place))
        (set_at bytes.now place).points result counts.new coordinates.new × Near w result 65 1024 }
{
    let Ok((n, m, _)) = kinds::sets::read_set(bytes, place, room, ends) else {
        bit_writer::store(counts, w.counts, 0);
        return Filled {
            counts: w.counts + 1,
            ..w
        };
    };
    Filled {
        counts: put_counts(counts, w.counts, ends, n),
        coordinates: stores::put_doubles(coordinates, w.coordinates, room, 2 * m),
    }
}

// The apart set and the inset set of a slot.
fn put_orientation(
    bytes: &[u8],
    places: &[u32],
    slot: usize,
    room: &mut [f64],
    ends: &mut [usize],
    counts: &mut [u64],
    coordinates: &mut [f64],
    w: Filled,
) -> Filled
    requires { Ready w 130 2048 × (slot < 1024) × (2048 ≤ length places.now) × (1024 ≤ length room.old) × (64 ≤ length ends.old) }
    ensures { Put w counts.old coordinates.old (orientation_counts (orientation_at bytes.now places.now slot))
        (orientation_points (orientation_at bytes.now places.now slot)) result counts.new coordinates.new
        × Near w result 130 2048 }
{
    let apart = 2 * slot;
    let inset = apart + 1;
    let v = put_set(bytes, places[apart], room, ends, counts, coordinates, w);
    put_set(bytes, places[inset], room, ends, counts, coordinates, v)
}

// The n orientations of a kind.
fn put_orientations(
    bytes: &[u8],
    places: &[u32],
    kind: usize,
    n: usize,
    room: &mut [f64],
    ends: &mut [usize],
    counts: &mut [u64],
    coordinates: &mut [f64],
    w: Filled,
) -> Filled
    requires { Ready w 2080 32768 × (kind < 64) × (n ≤ 16) × (2048 ≤ length places.now) × (1024 ≤ length room.old) × (64 ≤ length ends.old) }
    ensures { PutKinds w counts.old coordinates.old orientation_counts orientation_points
        (orientations_of bytes.now places.now kind n) result counts.new coordinates.new × Near w result 2080 32768 }
{
    let mut v = w;
    for i in 0..n {
        v = put_orientation(
            bytes,
            places,
            16 * kind + i,
            room,
            ends,
            counts,
            coordinates,
            v,
        );
    }
    v
}

// The sets of the first n kinds.
fn put_kinds(
    bytes: &[u8],
    rows: &[u64],
    places: &[u32],
    n: usize,
    room: &mut [f64],
    ends: &mut [usize],
    counts: &mut [u64],
    coordinates: &mut [f64],
    w: Filled,
) -> Filled
    requires { Ready w 133120 2097152 × (n ≤ 64) × ((k : ℕ) → k < n → get_or rows.now (4 * k + 3) 0 ≤ 16) × (256 ≤ length rows.now)
        × (2048 ≤ length places.now) × (1024 ≤ length room.old) × (64 ≤ length ends.old) }
    ensures { (areas : List Float) → PutKinds w counts.old coordinates.old kind_counts kind_points
        (tabulate (kind_at bytes.now rows.now areas places.now) n) result counts.new coordinates.new }
{
    let mut v = w;
    for i in 0..n {
        let turns = rows[4 * i + 3] as usize;
        v = put_orientations(bytes, places, i, turns, room, ends, counts, coordinates, v);
    }
    v
}

// The sets of a job in its order: the sheet's, then those of its kinds.
pub fn put_sets(
    bytes: &[u8],
    sheet: u32,
    rows: &[u64],
    places: &[u32],
    n: usize,
    counts: &mut [u64],
    coordinates: &mut [f64],
) -> Filled
    requires { (n ≤ 64) × ((k : ℕ) → k < n → get_or rows.now (4 * k + 3) 0 ≤ 16) × (256 ≤ length rows.now) × (2048 ≤ length places.now) }
    ensures { (areas : List Float) (j : Job) → j.sheet ≡ set_at bytes.now sheet
        → j.kinds ≡ tabulate (kind_at bytes.now rows.now areas places.now) n
        → Stored counts.old 0 (counts_of j) counts.new result.counts
        × Stored coordinates.old 0 (coordinates_of j) coordinates.new result.coordinates }
{
    let mut room = [0.0; 1024];
    let mut ends = [0usize; 64];
    let none = Filled {
        counts: 0,
        coordinates: 0,
    };
    let w = put_set(
        bytes,
        sheet,
        &mut room,
        &mut ends,
        counts,
        coordinates,
        none,
    );
    put_kinds(
        bytes,
        rows,
        places,
        n,
        &mut room,
        &mut ends,
        counts,
        coordinates,
        w,
    )
}
