// Storing a placed copy (document 01, "Filling"): its apart strips are moved and entered, their first
// buckets written; 20 and 21 are tested for the whole copy before the first write.
#![tactic(auto)]

ghost use Rattle.std.specs.Prelude.{◌≡◌, ◌+◌, ◌*◌, ◌≤◌, ◌<◌, length};
ghost use Rattle.trapezoid.specs.Strip.{capacity};
ghost use Rattle.index.specs.Buckets.{buckets};
ghost use Rattle.index.specs.inner.Listing.{Laid, FirstBuckets};
ghost use Rattle.store.specs.inner.Storing.{moved_to, width_at, widths_to, rest_of, left, store_of, Entered, FirstsEntered};

use index::{Bucket, Entry, Index, Overrun};
use trapezoid::Trapezoid;

// The apart strips, moved, go into the room from number n on.
pub fn store_moved(apart: &[f64], x: f64, y: f64, placed: &mut [f64], n: usize)
    requires { 6 * (n + capacity apart.now) ≤ length placed.old }
    ensures { placed.new ≡ moved_to apart.now x y n placed.old (capacity apart.now) }
{
    let count = trapezoid::capacity(apart);
    for j in 0..count {
        let q = trapezoid::load(apart, j);
        trapezoid::store(placed, n + j, q.moved(x, y));
    }
}

// How many buckets the strip q, moved by x, is entered in.
fn width_at(ix: Index, q: Trapezoid, x: f64) -> usize
    ensures { result ≡ width_at ix q x }
{
    let first = ix.bucket(q.x0 + x);
    let last = ix.bucket(q.x1 + x);
    (last + 1).saturating_sub(first)
}

// What is left of the room for `left` entries after those of the apart strips, moved by x.
pub fn entries_rest(ix: Index, apart: &[f64], x: f64, left: usize) -> Option<usize>
    ensures { result ≡ rest_of left (widths_to ix apart.now x (capacity apart.now)) }
{
    let count = trapezoid::capacity(apart);
    let mut rest = left;
    for j in 0..count {
        let q = trapezoid::load(apart, j);
        rest = rest.checked_sub(width_at(ix, q, x))?;
    }
    Some(rest)
}

// A copy's strips, moved, go after the n placed strips, into the entries and into the first buckets.
// `gains` is a table of work. Only crates of ours call it: entries and first buckets must be those of
// the placed strips.
pub fn store_copy(
    ix: Index,
    apart: &[f64],
    x: f64,
    y: f64,
    placed: &mut [f64],
    n: usize,
    entries: &mut [Entry],
    starts: &mut [usize],
    gains: &mut [usize],
    firsts: &mut [Bucket],
) -> Result<(), Overrun>
    requires { Laid ix placed.old n entries.old starts.old × (length gains.old ≡ buckets) × FirstBuckets ix placed.old n firsts.old }
    ensures { (left result placed.new entries.new starts.new ≡ store_of ix apart.now x y n placed.old
        entries.old starts.old firsts.old) × Entered ix n (capacity apart.now) placed.new
        entries.new starts.new result
        × FirstsEntered ix n (capacity apart.now) placed.new firsts.old firsts.new result }
{
    let k = trapezoid::capacity(apart);
    if index::standing_capacity(placed, firsts) < n + k {
        return Err(Overrun::StripRoom);
    }
    let room = entries.len() - starts[Index::BUCKETS];
    if entries_rest(ix, apart, x, room).is_none() {
        return Err(Overrun::EntryRoom);
    }
    store_moved(apart, x, y, placed, n);
    enter::enter_copy(ix, placed, n, n + k, entries, starts, gains, firsts);
    Ok(())
}
