// Whether the entries are those of the standing strips (document 01, refusal 31).
ghost use Rattle.std.specs.Prelude.{◌≡◌, true, false, List, ℕ, ◌+◌, ◌-◌, ◌*◌, ◌≤◌, ◌<◌, ◌^◌, length, get_or};
ghost use Rattle.trapezoid.specs.Strip.{strip_at};
ghost use Rattle.index.specs.Buckets.{buckets, bucket_in, entries_of};
ghost use Rattle.index.specs.inner.Listing.{entered_from, FirstBuckets};
ghost use Rattle.index.specs.entries.inner.Walk.{follows, Known};
ghost use Rattle.index.specs.entries.inner.Cursors.{raised, sum_of, Counts, Begun};

use crate::{Bucket, Entry, Index};

// Adds one to the number of each of the buckets lo to hi; that of bucket b stands at b + 1.
fn raise(table: &mut [usize], lo: usize, hi: usize)
    requires { (hi + 1 < length table.old) × ((b : ℕ) → lo ≤ b → b ≤ hi → get_or table.old (b + 1) 0 + 1 < 2 ^ 64) }
    ensures { table.new ≡ raised (hi + 1 - lo) lo table.old }
{
    for b in lo..hi + 1 {
        table[b + 1] += 1;
    }
}

// The last bucket of the standing strip i.
fn last_bucket(ix: Index, standing: &[f64], i: usize) -> usize
    requires { 6 * i + 6 ≤ length standing.now }
    ensures { result ≡ bucket_in ix (strip_at standing.now i).x1 }
{
    let p = trapezoid::load(standing, i);
    ix.bucket(p.x1)
}

// Counts the entries of each bucket of the first n standing strips into a table of zeros; a strip's
// first bucket is kept.
fn count_all(ix: Index, standing: &[f64], n: usize, counts: &mut [usize], firsts: &[Bucket])
    requires { (6 * n ≤ length standing.now) × (length counts.old ≡ buckets + 1) × FirstBuckets ix standing.now n firsts.now ×
        ((b : ℕ) → b < buckets + 1 → get_or counts.old b 0 ≡ 0) }
    ensures { Counts ix standing.now n counts.new }
{
    for i in 0..n {
        let lo = crate::entry(firsts, i);
        let hi = last_bucket(ix, standing, i);
        raise(counts, lo, hi);
    }
}

// Puts in each bucket's place how many entries the buckets before it have, if there is room for all.
fn sum_counts(counts: &mut [usize], room: usize) -> bool
    requires { length counts.old ≡ buckets + 1 }
    ensures { (result ≡ true → Begun counts.old room counts.new) × (result ≡ false → room < sum_of counts.old buckets) }
{
    let mut sum = 0;
    for b in 0..Index::BUCKETS {
        let count = counts[b + 1];
        if room - sum < count {
            return false;
        }
        counts[b + 1] = sum;
        sum += count;
    }
    true
}

// Whether the entry at the cursor of each of the buckets lo to hi is the number; the cursor of bucket b
// stands at b + 1.
fn at_cursors(entries: &[Entry], cursors: &[usize], number: usize, lo: usize, hi: usize) -> bool
    requires { (hi + 1 < length cursors.now) × ((b : ℕ) → lo ≤ b → b ≤ hi → get_or cursors.now (b + 1) 0 < length entries.now) }
    ensures { (result ≡ true → (b : ℕ) → lo ≤ b → b ≤ hi → get_or entries.now (get_or cursors.now (b + 1) 0) 0 ≡ number) ×
        (result ≡ false → (b : ℕ) × (lo ≤ b) × (b ≤ hi) × (get_or entries.now (get_or cursors.now (b + 1) 0) 0 ≡ number → ⊥)) }
{
    for b in lo..hi + 1 {
        let e = cursors[b + 1];
        if crate::entry(entries, e) != number {
            return false;
        }
    }
    true
}

// The walk strip by strip, each bucket's cursor where its entries are to begin. If all are there, starts
// has where each bucket's begin.
fn compare_all(
    ix: Index,
    standing: &[f64],
    n: usize,
    entries: &[Entry],
    starts: &mut [usize],
    firsts: &[Bucket],
) -> Option<usize>
    requires { (6 * n ≤ length standing.now) × FirstBuckets ix standing.now n firsts.now × (length starts.old ≡ buckets + 1) ×
        ((counts : List ℕ) × Counts ix standing.now n counts × Begun counts (length entries.now) starts.old) }
    ensures { (result ≡ follows entries.now 0 (entries_of ix standing.now n)) × Known ix standing.now n entries.now
        starts.new result }
{
    for i in 0..n {
        let lo = crate::entry(firsts, i);
        let hi = last_bucket(ix, standing, i);
        if !at_cursors(entries, starts, i, lo, hi) {
            return None;
        }
        raise(starts, lo, hi);
    }
    Some(starts[Index::BUCKETS])
}

// Whether the entries begin with those of the first n standing strips, and where these end; if so,
// starts has where each bucket's begin.
pub fn walk_all(
    ix: Index,
    standing: &[f64],
    n: usize,
    entries: &[Entry],
    starts: &mut [usize],
    firsts: &[Bucket],
) -> Option<usize>
    requires { (6 * n ≤ length standing.now) × (length starts.old ≡ buckets + 1) × FirstBuckets ix standing.now n firsts.now }
    ensures { (result ≡ follows entries.now 0 (entries_of ix standing.now n)) × Known ix standing.now n entries.now
        starts.new result }
{
    starts.fill(0);
    count_all(ix, standing, n, starts, firsts);
    if !sum_counts(starts, entries.len()) {
        return None;
    }
    compare_all(ix, standing, n, entries, starts, firsts)
}
