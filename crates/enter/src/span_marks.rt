// The buckets of a copy's strips, kept for a while; marks that tell how many new entries each bucket has.
ghost use Rattle.std.specs.Prelude.{◌≡◌, ℕ, ◌+◌, ◌-◌, ◌*◌, ◌≤◌, ◌<◌, ◌^◌, length, get_or};
ghost use Rattle.trapezoid.specs.Strip.{strip_at};
ghost use Rattle.index.specs.Buckets.{buckets, bucket_in};
ghost use Rattle.enter.specs.span_marks.inner.NewEntries.{new_in, one, Within, Kept};

use index::Index;

// The first and the last bucket of a strip.
#[derive(Clone, Copy)]
pub struct Span {
    pub lo: usize,
    pub hi: usize,
}

impl Span {
    // How many buckets there are from lo to hi.
    pub fn width(self) -> usize
        requires { self.hi < buckets }
        ensures { result ≡ self.hi + 1 - self.lo }
    {
        (self.hi + 1).saturating_sub(self.lo)
    }
}

// The buckets of strip i.
pub fn span_of(ix: Index, standing: &[f64], i: usize) -> Span
    requires { 6 * i + 6 ≤ length standing.now }
    ensures { (result.lo ≡ bucket_in ix (strip_at standing.now i).x0) × (result.hi ≡ bucket_in ix (strip_at standing.now i).x1) }
{
    let p = trapezoid::load(standing, i);
    let lo = ix.bucket(p.x0);
    let hi = ix.bucket(p.x1);
    Span { lo, hi }
}

// How many of a copy's strips have their buckets kept.
const KEPT: usize = 64;

// Keeps the buckets of strip j of the copy, if it is one of the first.
pub fn keep(firsts: &mut [u16], lasts: &mut [u16], j: usize, lo: usize, hi: usize)
    requires { (length firsts.old ≡ 64) × (length lasts.old ≡ 64) × (lo < buckets) × (hi < buckets) }
    ensures { ((d : ℕ) → d < j → (get_or firsts.new d 0 ≡ get_or firsts.old d 0)
        × (get_or lasts.new d 0 ≡ get_or lasts.old d 0)) × (j < 64 → (get_or firsts.new j 0 ≡ lo)
        × (get_or lasts.new j 0 ≡ hi)) }
{
    if j < KEPT {
        firsts[j] = lo as u16;
        lasts[j] = hi as u16;
    }
}

// The buckets of strip i of a copy whose strips begin at `from`: as kept, or worked out again.
pub fn kept_span(
    ix: Index,
    standing: &[f64],
    from: usize,
    i: usize,
    firsts: &[u16],
    lasts: &[u16],
) -> Span
    requires { (from ≤ i) × (6 * i + 6 ≤ length standing.now) × (length firsts.now ≡ 64) × (length lasts.now ≡ 64)
        × Kept ix standing.now from (i + 1 - from) firsts.now lasts.now }
    ensures { (result.lo ≡ bucket_in ix (strip_at standing.now i).x0) × (result.hi ≡ bucket_in ix (strip_at standing.now i).x1) }
{
    let j = i - from;
    if j < KEPT {
        let lo = usize::from(firsts[j]);
        let hi = usize::from(lasts[j]);
        return Span { lo, hi };
    }
    span_of(ix, standing, i)
}

// Sets the marks from bucket `first` to before `end` to `count`.
fn clear(marks: &mut [usize], first: usize, end: usize, count: usize)
    requires { end ≤ length marks.old }
    ensures { (b : ℕ) → first ≤ b → b < end → get_or marks.new b 0 ≡ count }
{
    // no `fill` of a slice: with no strips, `first` lies after `end`
    for b in first..end {
        marks[b] = count;
    }
}

// Adds one at a strip's last bucket, and takes one off before its first, if that is not before `first`.
fn mark(marks: &mut [usize], lo: usize, hi: usize, first: usize)
    requires { (hi < length marks.old) × (first ≤ lo) × (lo ≤ hi → (get_or marks.old hi 0 + 1 < 2 ^ 64)
        × (first < lo → 0 < get_or marks.old (lo - 1) 0)) }
    ensures { (b : ℕ) → first ≤ b → get_or marks.new b 0 + one lo hi (b + 1) ≡ get_or marks.old b 0 + one lo hi b }
{
    if lo <= hi {
        marks[hi] += 1;
        if first < lo {
            marks[lo - 1] -= 1;
        }
    }
}

// Marks the strips: a bucket's mark is their number and its new entries, less the next bucket's.
pub fn mark_all(
    ix: Index,
    standing: &[f64],
    from: usize,
    to: usize,
    firsts: &[u16],
    lasts: &[u16],
    first: usize,
    end: usize,
    marks: &mut [usize],
)
    requires { (from ≤ to) × (6 * to ≤ length standing.now) × (length firsts.now ≡ 64) × (length lasts.now ≡ 64)
        × Kept ix standing.now from (to - from) firsts.now lasts.now × (end ≤ buckets) × Within ix standing.now from to first end
        × (length marks.old ≡ buckets) }
    ensures { (b : ℕ) → first ≤ b → b < end → get_or marks.new b 0 + length (new_in ix standing.now (to - from) from (b + 1))
        ≡ to - from + length (new_in ix standing.now (to - from) from b) }
{
    clear(marks, first, end, to - from);
    for i in from..to {
        let s = kept_span(ix, standing, from, i, firsts, lasts);
        mark(marks, s.lo, s.hi, first);
    }
}
