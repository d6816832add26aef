// Entering a copy's strips into the buckets' entries: in place, in one pass from the back. Their first
// buckets are written too.
#![tactic(auto)]

pub mod span_marks;

ghost use Rattle.std.specs.Prelude.{◌≡◌, true, false, ℕ, ◌+◌, ◌-◌, ◌*◌, ◌≤◌, ◌<◌, length, get_or, IfSome, IfNone};
ghost use Rattle.index.specs.Buckets.{buckets, strip_numbers};
ghost use Rattle.index.specs.inner.Listing.{Laid, entered_from};
ghost use Rattle.enter.specs.inner.EntryRoom.{start_of, enter_of, FirstsWritten};
ghost use Rattle.enter.specs.span_marks.inner.NewEntries.{Within, Kept};
ghost use Rattle.enter.specs.inner.Gaps.{Blocks, filled, rooms, entering};

use index::{Bucket, Entry, Index};

// So many entries in all are 16 to a bucket.
const LONG: usize = 8192;

// How many new entries there are, from which bucket on and before which.
#[derive(Clone, Copy)]
struct Window {
    more: usize,
    first: usize,
    end: usize,
}

// Counts the new entries of the strips from `from` to below `to`, if at most `left`; keeps their buckets.
fn measure(
    ix: Index,
    standing: &[f64],
    from: usize,
    to: usize,
    left: usize,
    firsts: &mut [u16],
    lasts: &mut [u16],
) -> Option<Window>
    requires { (from ≤ to) × (6 * to ≤ length standing.now) × (length firsts.old ≡ 64) × (length lasts.old ≡ 64) }
    ensures fits { IfSome result (λ w. (start_of ix standing.now to buckets ≡ start_of ix standing.now from buckets + w.more)
        × (w.more ≤ left) × (w.end ≤ buckets) × Within ix standing.now from to w.first w.end
        × Kept ix standing.now from (to - from) firsts.new lasts.new) }
    ensures over { IfNone result (start_of ix standing.now from buckets + left < start_of ix standing.now to buckets) }
{
    let mut more: usize = 0;
    let mut first: usize = Index::BUCKETS;
    let mut end: usize = 0;
    for i in from..to {
        let s = span_marks::span_of(ix, standing, i);
        let width = s.width();
        if left - more < width {
            return None;
        }
        more += width;
        first = first.min(s.lo);
        end = end.max(s.hi + 1);
        span_marks::keep(firsts, lasts, i - from, s.lo, s.hi);
    }
    Some(Window { more, first, end })
}

// Puts a strip's number at the end of each of the buckets lo to hi.
fn fill_strip(entries: &mut [Entry], starts: &mut [usize], number: usize, lo: usize, hi: usize)
    requires { (length starts.old ≡ buckets + 1) × (hi < buckets) × ((b : ℕ) → lo ≤ b → b ≤ hi → get_or starts.old (b + 1) 0 < length entries.old)
        × (number < strip_numbers) }
    ensures { rooms entries.new starts.new ≡ filled number (hi + 1 - lo) lo (rooms entries.old starts.old) }
{
    // not `lo..=hi`: its proof did not close
    for b in lo..hi + 1 {
        let e = starts[b + 1];
        gaps::set_entry(entries, e, number);
        starts[b + 1] = e + 1;
    }
}

// Puts the strips from `from` to below `to` into the gaps.
fn fill(
    ix: Index,
    standing: &[f64],
    from: usize,
    to: usize,
    firsts: &[u16],
    lasts: &[u16],
    entries: &mut [Entry],
    starts: &mut [usize],
)
    requires { (from ≤ to) × (6 * to ≤ length standing.now) × (length firsts.now ≡ 64) × (length lasts.now ≡ 64)
        × Kept ix standing.now from (to - from) firsts.now lasts.now × (start_of ix standing.now to buckets ≤ length entries.old)
        × Blocks (start_of ix standing.now to) (entered_from ix standing.now from) entries.old starts.old × (to ≤ strip_numbers) }
    ensures { Blocks (start_of ix standing.now to) (entered_from ix standing.now to) entries.new starts.new
        × ((j : ℕ) → start_of ix standing.now to buckets ≤ j → get_or entries.new j 0 ≡ get_or entries.old j 0) }
{
    for i in from..to {
        let s = span_marks::kept_span(ix, standing, from, i, firsts, lasts);
        fill_strip(entries, starts, i, s.lo, s.hi);
    }
}

// Enters a copy's strips, however many, as `enter_copy` does.
fn enter_many(
    ix: Index,
    standing: &[f64],
    from: usize,
    to: usize,
    entries: &mut [Entry],
    starts: &mut [usize],
    gains: &mut [usize],
) -> bool
    requires { (from ≤ to) × (6 * to ≤ length standing.now) × (length gains.old ≡ buckets) × Laid ix standing.now from entries.old starts.old
        × (to ≤ strip_numbers) }
    ensures { (entering result entries.new starts.new ≡ enter_of ix standing.now to
        (rooms entries.old starts.old)) × (result ≡ true → Laid ix standing.now to entries.new starts.new) }
{
    let mut firsts = [0u16; 64];
    let mut lasts = [0u16; 64];
    let left = entries.len() - starts[Index::BUCKETS];
    let Some(w) = measure(ix, standing, from, to, left, &mut firsts, &mut lasts) else {
        return false;
    };
    span_marks::mark_all(
        ix, standing, from, to, &firsts, &lasts, w.first, w.end, gains,
    );
    gaps::open_all(entries, starts, gains, to - from, w.more, w.end);
    fill(ix, standing, from, to, &firsts, &lasts, entries, starts);
    true
}

// Enters strip `from` alone, as `enter_copy` does: each of its buckets has one new entry.
fn enter_one(
    ix: Index,
    standing: &[f64],
    from: usize,
    entries: &mut [Entry],
    starts: &mut [usize],
) -> bool
    requires { (6 * from + 6 ≤ length standing.now) × Laid ix standing.now from entries.old starts.old × (from < strip_numbers) }
    ensures { (entering result entries.new starts.new ≡ enter_of ix standing.now (from + 1)
        (rooms entries.old starts.old))
        × (result ≡ true → Laid ix standing.now (from + 1) entries.new starts.new) }
{
    let s = span_marks::span_of(ix, standing, from);
    let lo = s.lo;
    let width = s.width();
    let all = starts[Index::BUCKETS];
    if entries.len() - all < width {
        return false;
    }
    let end = lo + width;
    let after = starts[end];
    moves::move_block(entries, after, all, width);
    gaps::insert(entries, starts, from, lo, width, all >= LONG);
    gaps::step_up(starts, lo, width);
    moves::shift(starts, end + 1, width);
    true
}

// Enters a copy's strips, as `enter_copy` does.
fn enter_strips(
    ix: Index,
    standing: &[f64],
    from: usize,
    to: usize,
    entries: &mut [Entry],
    starts: &mut [usize],
    gains: &mut [usize],
) -> bool
    requires { (from ≤ to) × (6 * to ≤ length standing.now) × (length gains.old ≡ buckets) × Laid ix standing.now from entries.old starts.old
        × (to ≤ strip_numbers) }
    ensures { (entering result entries.new starts.new ≡ enter_of ix standing.now to
        (rooms entries.old starts.old)) × (result ≡ true → Laid ix standing.now to entries.new starts.new) }
{
    if to - from == 1 {
        return enter_one(ix, standing, from, entries, starts);
    }
    enter_many(ix, standing, from, to, entries, starts, gains)
}

// Writes the first bucket of each of the strips from `from` to below `to`.
fn keep_firsts(ix: Index, standing: &[f64], from: usize, to: usize, firsts: &mut [Bucket])
    requires { (from ≤ to) × (6 * to ≤ length standing.now) × (to ≤ length firsts.old) }
    ensures { FirstsWritten ix standing.now from to firsts.old firsts.new }
{
    for i in from..to {
        let p = trapezoid::load(standing, i);
        let first = ix.bucket(p.x0);
        firsts[i] = first as u16;
    }
}

// Enters a copy's strips, from `from` to below `to`, and writes their first buckets, if the room
// holds their entries too; else changes neither entries nor starts nor first buckets. `gains` is a
// table of work.
pub fn enter_copy(
    ix: Index,
    standing: &[f64],
    from: usize,
    to: usize,
    entries: &mut [Entry],
    starts: &mut [usize],
    gains: &mut [usize],
    firsts: &mut [Bucket],
) -> bool
    requires { (from ≤ to) × (6 * to ≤ length standing.now) × (length gains.old ≡ buckets) × Laid ix standing.now from entries.old starts.old
        × (to ≤ strip_numbers) × (to ≤ length firsts.old) }
    ensures { (entering result entries.new starts.new ≡ enter_of ix standing.now to
        (rooms entries.old starts.old)) × (result ≡ true → Laid ix standing.now to entries.new starts.new)
        × (result ≡ true → FirstsWritten ix standing.now from to firsts.old firsts.new)
        × (result ≡ false → firsts.new ≡ firsts.old) }
{
    if enter_strips(ix, standing, from, to, entries, starts, gains) {
        keep_firsts(ix, standing, from, to, firsts);
        return true;
    }
    false
}
