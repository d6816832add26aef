// Sets of loops (document 01, "The job's bits"), read into lent rooms: the coordinates of a set's
// points, x, y, x, y, .., and for each loop the number of points up to its end. The functions are
// called by this project's crates alone.
ghost use Rattle.std.specs.Prelude.{◌≡◌, ◌+◌, ◌*◌, ◌≤◌, ◌<◌, [], length, take};
ghost use Rattle.kinds.specs.sets.Sets.{some_points, a_loop, some_loops, a_set};
ghost use Rattle.kinds.specs.sets.inner.Answers.{run_read, loop_read, set_read, run_fits, loop_fits, set_fits};

use bits::Refusal;

// n points into the room, after the first ones that it holds.
fn read_points(
    bytes: &[u8],
    at: usize,
    n: usize,
    room: &mut [f64],
    first: usize,
) -> Result<usize, Refusal>
    requires { (at ≤ 1099511627776) × (first + n ≤ 512) × (1024 ≤ length room.old) }
    ensures { (some_points n (take (2 * first) room.old) bytes.now at ≡ run_read result (take (2 * (first + n)) room.new))
        × run_fits result (at + 128 * n) }
{
    let mut p = at;
    for i in 0..n {
        let (x, y, q) = bits::read_point(bytes, p)?;
        let j = 2 * (first + i);
        room[j] = x;
        room[j + 1] = y;
        p = q;
    }
    Ok(p)
}

// A loop of a set, after the points that the room holds.
fn read_loop(
    bytes: &[u8],
    at: usize,
    room: &mut [f64],
    before: usize,
) -> Result<(usize, usize), Refusal>
    requires { (at ≤ 1000000000000) × (before ≤ 512) × (1024 ≤ length room.old) }
    ensures { (a_loop before (take (2 * before) room.old) bytes.now at ≡ loop_read result room.new) × loop_fits result at before }
{
    let k = bits::read_point_count(bytes, at, before as u64)?;
    let n = k as usize;
    let end = before + n;
    let q = read_points(bytes, at + 10, n, room, before)?;
    Ok((end, q))
}

// The n loops of a set.
fn read_loops(
    bytes: &[u8],
    at: usize,
    n: usize,
    room: &mut [f64],
    ends: &mut [usize],
) -> Result<(usize, usize, usize), Refusal>
    requires { (at ≤ 900000000000) × (n ≤ 64) × (1024 ≤ length room.old) × (64 ≤ length ends.old) }
    ensures { (some_loops n 0 [] [] bytes.now at ≡ set_read result room.new ends.new) × set_fits result (at + 66176) }
{
    let mut p = at;
    let mut before = 0;
    for i in 0..n {
        let (m, q) = read_loop(bytes, p, room, before)?;
        ends[i] = m;
        before = m;
        p = q;
    }
    Ok((n, before, p))
}

// The set at a bit position, into the rooms: the coordinates of its points, and for each loop the
// number of points up to its end.
pub fn read_set(
    bytes: &[u8],
    at: u32,
    room: &mut [f64],
    ends: &mut [usize],
) -> Result<(usize, usize, usize), Refusal>
    requires { (1024 ≤ length room.old) × (64 ≤ length ends.old) }
    ensures { (a_set bytes.now at ≡ set_read result room.new ends.new) × set_fits result (at + 66183) }
{
    let p = at as usize;
    let n = bits::read_count(bytes, p, 7, 1, 64)?;
    read_loops(bytes, p + 7, n as usize, room, ends)
}
