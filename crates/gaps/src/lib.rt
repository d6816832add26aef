// Room between the buckets: all moved up by the new entries before them, or those of one strip.
#![tactic(auto)]

ghost use Rattle.std.specs.Prelude.{◌≡◌, ℕ, ◌+◌, ◌≤◌, ◌<◌, ◌^◌, List, length, get_or, set};
ghost use Rattle.index.specs.Buckets.{buckets, strip_numbers};
ghost use Rattle.gaps.specs.inner.OpenGaps.{before, Marked, Opened, Inserted, Stepped};

use index::{Entry, Index};

// Writes the number of a strip as entry e.
pub fn set_entry(entries: &mut [Entry], e: usize, number: usize)
    requires { (e < length entries.old) × (number < strip_numbers) }
    ensures { entries.new ≡ set entries.old e number }
{
    entries[e] = number as u16;
}

// Moves each bucket before `end` up by the new entries before it, from the last to the first that has
// new ones before it: the new entries of a bucket then have room at its end, where its next start stands.
fn open_gaps(
    entries: &mut [Entry],
    starts: &mut [usize],
    marks: &[usize],
    count: usize,
    more: usize,
    end: usize,
)
    requires { (length starts.old ≡ buckets + 1) × (end ≤ buckets) × ((b c : ℕ) → b ≤ c → c < end + 1 → get_or starts.old b 0 ≤ get_or starts.old c 0)
        × (length marks.now ≡ buckets) × (get_or starts.old end 0 + more ≤ length entries.old) × (count + more < 2 ^ 64)
        × ((g : List ℕ) × Marked count end g marks.now × (more ≡ before g end)) }
    ensures { (g : List ℕ) → Marked count end g marks.now → more ≡ before g end → Opened end starts.old g entries.old 0
        entries.new starts.new }
{
    let mut b = end;
    let mut left = more;
    let mut new: usize = 0;
    // not a `for` with a `break`: with it, entering eight strips took 449 ns and not 408
    while left > 0 {
        b -= 1;
        new = new + marks[b] - count;
        left -= new;
        let from = starts[b];
        let to = starts[b + 1];
        moves::move_up(entries, from, to, left);
        starts[b + 1] = to + left;
    }
}

// Moves all buckets up so: those from `end` on, which have no new entries, as one block. Only crates
// of ours call it.
pub fn open_all(
    entries: &mut [Entry],
    starts: &mut [usize],
    marks: &[usize],
    count: usize,
    more: usize,
    end: usize,
)
    requires { (length starts.old ≡ buckets + 1) × ((b c : ℕ) → b ≤ c → c < buckets + 1 → get_or starts.old b 0 ≤ get_or starts.old c 0)
        × (length marks.now ≡ buckets) × (get_or starts.old buckets 0 + more ≤ length entries.old) × (end ≤ buckets) × (count + more < 2 ^ 64)
        × ((g : List ℕ) × Marked count end g marks.now × (more ≡ before g buckets)) }
    ensures { (g : List ℕ) → Marked count end g marks.now → more ≡ before g buckets
        → Opened buckets starts.old g entries.old 0 entries.new starts.new }
{
    let from = starts[end];
    let to = starts[Index::BUCKETS];
    moves::move_block(entries, from, to, more);
    moves::shift(starts, end + 1, more);
    open_gaps(entries, starts, marks, count, more, end);
}

// Moves `width` buckets from lo on up by 0, 1, .., the last first; a strip's number goes to each one's end.
// `long` where buckets are likely to be long.
pub fn insert(
    entries: &mut [Entry],
    starts: &[usize],
    number: usize,
    lo: usize,
    width: usize,
    long: bool,
)
    requires { (lo + width < length starts.now) × ((b c : ℕ) → b ≤ c → c < length starts.now → get_or starts.now b 0 ≤ get_or starts.now c 0)
        × (get_or starts.now (lo + width) 0 + width ≤ length entries.old) × (number < strip_numbers) }
    ensures { Inserted lo width number starts.now entries.old 0 entries.new }
{
    for by in (0..width).rev() {
        let b = lo + by;
        let from = starts[b];
        let to = starts[b + 1];
        moves::move_bucket(entries, from, to, by, long);
        set_entry(entries, to + by, number);
    }
}

// Adds 1, 2, .. `width` to the starts after that of bucket lo.
pub fn step_up(starts: &mut [usize], lo: usize, width: usize)
    requires { (lo + width < length starts.old) × ((c : ℕ) → c < length starts.old → get_or starts.old c 0 + width < 18446744073709551616) }
    ensures { Stepped lo starts.old width starts.new }
{
    for d in 1..=width {
        starts[lo + d] += d;
    }
}
