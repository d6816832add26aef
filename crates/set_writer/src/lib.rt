// Sets of loops, written (document 02, W9): numbers of a job's tables, judged as the reader judges them, and put
// as bits. The functions are called by this project's crates alone.
#![tactic(auto)]

ghost use Rattle.std.specs.Prelude.{◌≡◌, ℕ, ◌+◌, ◌*◌, ◌≤◌, ◌<◌, length, get_or, Float};
ghost use mathlib.Core.List.{List, flat_map};
ghost use Rattle.std.specs.Float.{nan, binary64};
ghost use Rattle.std.specs.Float.Ieee.{to_bits};
ghost use Rattle.bit_writer.specs.inner.BitWriting.{Sound, written, Put};
ghost use Rattle.job_bits.specs.JobBits.{double_bits, set_bits};
ghost use Rattle.job_bits.specs.Given.{next_coordinate, given_points, given_loops, given_set};
ghost use Rattle.job_bits.specs.inner.Loops.{loop_bits};
ghost use Rattle.set_writer.specs.inner.Walks.{Walks, Near, Ready};

use bit_writer::BitWriter;
use bits::Refusal;

// The value of a table at a place, or `missing` behind its end.
pub fn value_at<T: Copy>(table: &[T], i: usize, missing: T) -> T
    ensures { result ≡ get_or table.now i missing }
{
    table.get(i).copied().unwrap_or(missing)
}

// How far a job's tables are walked, and the writer that writes it.
#[derive(Clone, Copy)]
pub struct Walk {
    pub counts: usize,
    pub coordinates: usize,
    pub writer: BitWriter,
}

// The next coordinate.
fn put_coordinate(coordinates: &[f64], out: &mut [u8], w: Walk) -> Result<Walk, Refusal>
    requires { Ready w 0 1 64 }
    ensures { ((cs : List ℕ) → Walks (next_coordinate cs coordinates.now w.counts w.coordinates) double_bits w out.old result
        out.new) × Near w result 0 1 64 }
{
    let x = value_at(coordinates, w.coordinates, f64::NAN);
    let v = bits::judge_coordinate(numbers::bits_of(x))?;
    let writer = bit_writer::put(out, w.writer, numbers::bits_of(v), 64);
    Ok(Walk {
        coordinates: w.coordinates + 1,
        writer,
        ..w
    })
}

// The next n points.
fn put_points(coordinates: &[f64], out: &mut [u8], w: Walk, n: usize) -> Result<Walk, Refusal>
    requires { Ready w 0 (2 * n) (128 * n) }
    ensures { ((cs : List ℕ) → Walks (given_points n cs coordinates.now w.counts w.coordinates) (flat_map double_bits) w out.old
        result out.new) × Near w result 0 (2 * n) (128 * n) }
{
    if n == 0 {
        return Ok(w);
    }
    let u = put_coordinate(coordinates, out, w)?;
    let v = put_coordinate(coordinates, out, u)?;
    put_points(coordinates, out, v, n - 1)
}

// The next n loops of a set that has so many points before them.
fn put_loops(
    counts: &[u64],
    coordinates: &[f64],
    out: &mut [u8],
    w: Walk,
    n: usize,
    before: u64,
) -> Result<Walk, Refusal>
    requires { Ready w n (1024 * n) (65546 * n) × (before ≤ 512) }
    ensures { Walks (given_loops n before counts.now coordinates.now w.counts w.coordinates) (loop_bits before) w
        out.old result out.new × Near w result n (1024 * n) (65546 * n) }
{
    if n == 0 {
        return Ok(w);
    }
    let m = bits::judge_points(before, value_at(counts, w.counts, 0))?;
    let writer = bit_writer::put(out, w.writer, m, 10);
    let u = Walk {
        counts: w.counts + 1,
        writer,
        ..w
    };
    let v = put_points(coordinates, out, u, m as usize)?;
    put_loops(counts, coordinates, out, v, n - 1, before + m)
}

// The next set.
pub fn put_set(
    counts: &[u64],
    coordinates: &[f64],
    out: &mut [u8],
    w: Walk,
) -> Result<Walk, Refusal>
    requires { Ready w 65 65536 4194951 }
    ensures { Walks (given_set counts.now coordinates.now w.counts w.coordinates) set_bits w out.old result
        out.new × Near w result 65 65536 4194951 }
{
    let n = bits::judge_count(value_at(counts, w.counts, 0), 1, 64)?;
    let writer = bit_writer::put(out, w.writer, n, 7);
    let u = Walk {
        counts: w.counts + 1,
        writer,
        ..w
    };
    put_loops(counts, coordinates, out, u, n as usize, 0)
}
