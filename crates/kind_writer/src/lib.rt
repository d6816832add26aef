// Kinds, written (document 02, W9): a kind's fields and sets from a job's tables, judged as the reader judges them,
// and put as bits. The functions are called by this project's crates alone.
#![tactic(auto)]

ghost use Rattle.std.specs.Prelude.{◌≡◌, ℕ, ◌+◌, ◌*◌, ◌≤◌, ◌<◌, length, Float};
ghost use mathlib.Core.List.{List, flat_map};
ghost use Rattle.kinds.specs.Kinds.{head_at};
ghost use Rattle.job_bits.specs.JobBits.{orientation_bits, head_bits, kind_bits};
ghost use Rattle.job_bits.specs.Given.{given_orientation, given_orientations, given_head, given_kind, given_kinds};
ghost use Rattle.set_writer.specs.inner.Walks.{Walks, Near, Ready};
ghost use Rattle.kind_writer.specs.inner.WalksKinds.{WalksKinds, NearKinds};

use bits::Refusal;
use kinds::KindHead;
use set_writer::{Walk, value_at};

// The two sets of an orientation.
fn put_orientation(
    counts: &[u64],
    coordinates: &[f64],
    out: &mut [u8],
    w: Walk,
) -> Result<Walk, Refusal>
    requires { Ready w 130 131072 8389902 }
    ensures { Walks (given_orientation counts.now coordinates.now w.counts w.coordinates) orientation_bits w out.old
        result out.new × Near w result 130 131072 8389902 }
{
    let v = set_writer::put_set(counts, coordinates, out, w)?;
    set_writer::put_set(counts, coordinates, out, v)
}

// The next n orientations.
fn put_orientations(
    counts: &[u64],
    coordinates: &[f64],
    out: &mut [u8],
    w: Walk,
    n: usize,
) -> Result<Walk, Refusal>
    requires { Ready w (130 * n) (131072 * n) (8389902 * n) }
    ensures { Walks (given_orientations n counts.now coordinates.now w.counts w.coordinates) (flat_map orientation_bits) w
        out.old result out.new × Near w result (130 * n) (131072 * n) (8389902 * n) }
{
    if n == 0 {
        return Ok(w);
    }
    let v = put_orientation(counts, coordinates, out, w)?;
    put_orientations(counts, coordinates, out, v, n - 1)
}

// A kind's fields before its sets.
fn put_head(out: &mut [u8], w: Walk, h: KindHead) -> Result<Walk, Refusal>
    requires { Ready w 0 0 114 }
    ensures { ((cs : List ℕ) (xs : List Float) → Walks (given_head h cs xs w.counts w.coordinates) head_bits w out.old result
        out.new) × Near w result 0 0 114 }
{
    let quantity = bits::judge_count(h.quantity, 1, 4095)?;
    let p = bit_writer::put(out, w.writer, quantity, 12);
    if 2 <= h.fill {
        return Err(Refusal::CountOutOfRange);
    }
    let p = bit_writer::put(out, p, h.fill, 1);
    if 4294967296 <= h.priority {
        return Err(Refusal::CountOutOfRange);
    }
    let p = bit_writer::put(out, p, h.priority, 32);
    let area = bits::judge_number(numbers::bits_of(h.area), 0.0, 1000000000000.0)?;
    let p = bit_writer::put(out, p, numbers::bits_of(area), 64);
    let orientations = bits::judge_count(h.orientations, 1, 16)?;
    let writer = bit_writer::put(out, p, orientations, 5);
    Ok(Walk { writer, ..w })
}

// A kind.
fn put_kind(
    counts: &[u64],
    coordinates: &[f64],
    out: &mut [u8],
    w: Walk,
    h: KindHead,
) -> Result<Walk, Refusal>
    requires { Ready w 2080 2097152 134238546 }
    ensures { Walks (given_kind h counts.now coordinates.now w.counts w.coordinates) kind_bits w out.old result
        out.new × Near w result 2080 2097152 134238546 }
{
    let v = put_head(out, w, h)?;
    put_orientations(counts, coordinates, out, v, h.orientations as usize)
}

// A kind's fields in the tables.
fn head_at(rows: &[u64], areas: &[f64], k: usize) -> KindHead
    requires { k ≤ 1000 }
    ensures { result ≡ head_at rows.now areas.now k }
{
    let j = 4 * k;
    KindHead {
        quantity: value_at(rows, j, 0),
        fill: value_at(rows, j + 1, 0),
        priority: value_at(rows, j + 2, 0),
        area: value_at(areas, k, f64::NAN),
        orientations: value_at(rows, j + 3, 0),
    }
}

// n kinds, from kind k on, and how many copies they ask for.
pub fn put_kinds(
    rows: &[u64],
    areas: &[f64],
    counts: &[u64],
    coordinates: &[f64],
    out: &mut [u8],
    w: Walk,
    n: usize,
    k: usize,
) -> Result<(Walk, u64), Refusal>
    requires { Ready w (2080 * n) (2097152 * n) (134238546 * n) × (n + k ≤ 64) }
    ensures { WalksKinds (given_kinds rows.now areas.now n k counts.now coordinates.now w.counts
        w.coordinates) (flat_map kind_bits) w out.old result out.new × NearKinds w result (2080 * n) (2097152 * n) (134238546 * n) (4095 * n) }
{
    if n == 0 {
        return Ok((w, 0));
    }
    let h = head_at(rows, areas, k);
    let v = put_kind(counts, coordinates, out, w, h)?;
    let (u, m) = put_kinds(rows, areas, counts, coordinates, out, v, n - 1, k + 1)?;
    Ok((u, h.quantity + m))
}
