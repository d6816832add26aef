// The index over the standing strips, and the forbidden intervals that it lists (document 01, "Index").
#![tactic(auto)]

pub mod entries;

ghost use Rattle.std.specs.Prelude.{◌≡◌, ℕ, ◌+◌, ◌-◌, ◌*◌, ◌/◌, ◌≤◌, ◌<◌, min, length, get_or};
ghost use Rattle.trapezoid.specs.Strip.{strip_at, capacity};
ghost use Rattle.index.specs.Buckets.{index_of, bucket_in, standing_capacity};
ghost use Rattle.index.specs.Intervals.{counts_of};
ghost use Rattle.index.specs.inner.Listing.{moving_of, heights_of, meeting_at, pair_of, collected, push, push_all, entry_by, list_entries_by, list_moving, listed};
ghost use Rattle.index.specs.inner.Listing.{Usable, FirstBuckets};

use trapezoid::Trapezoid;

// An entry of a bucket: the number of a standing strip.
pub type Entry = u16;

// The number of a bucket, kept with a standing strip.
pub type Bucket = u16;

// How many strips entries can number: 0 to 65,535.
const STRIP_NUMBERS: usize = 65536;

// The buckets: Index::BUCKETS of them, each `width` wide, the first from x0 on.
#[derive(Clone, Copy)]
pub struct Index {
    pub x0: f64,
    pub width: f64,
}

// The kind of lent room that is overrun: document 01's 20, 21 and 22.
#[derive(Clone, Copy, Debug, PartialEq, Eq)]
pub enum Overrun {
    StripRoom,
    EntryRoom,
    IntervalRoom,
}

// An open interval of heights: neither end lies in it.
#[derive(Clone, Copy)]
pub struct Interval {
    pub from: f64,
    pub to: f64,
}

// A moving strip (document 01): a strip moved by x, the ends to which it moves, and the lowest and
// the highest allowed height.
#[derive(Clone, Copy)]
pub struct Moving {
    pub strip: Trapezoid,
    pub x: f64,
    pub x0: f64,
    pub x1: f64,
    pub y_low: f64,
    pub y_high: f64,
}

impl Index {
    pub const BUCKETS: usize = 512;

    // The index over the width from x0 to x1.
    pub fn new(x0: f64, x1: f64) -> Index
        ensures { result ≡ index_of x0 x1 }
    {
        let share = (x1 - x0) / (Index::BUCKETS as f64);
        let width = numbers::larger(share, 2.2250738585072014e-308);
        Index { x0, width }
    }

    // The number of the bucket of x.
    pub fn bucket(self, x: f64) -> usize
        ensures { result ≡ bucket_in self x }
    {
        let b = numbers::floor((x - self.x0) / self.width) as usize;
        // not `min`: with it, entering one strip took 269 ns and not 229
        if b < Index::BUCKETS {
            return b;
        }
        Index::BUCKETS - 1
    }

    // Appends the counted intervals of all moving strips at x against the standing strips to the
    // `start` intervals of the room; answers how many there are then, one more than fit if they do not.
    // Only crates of ours call it: the entries must name standing strips, the kept numbers be true.
    pub fn forbidden(
        self,
        moving: &[f64],
        x: f64,
        y_low: f64,
        y_high: f64,
        standing: &[f64],
        entries: &[Entry],
        starts: &[usize],
        room: &mut [f64],
        start: usize,
        firsts: &[Bucket],
    ) -> usize
        requires { Usable standing.now entries.now starts.now × FirstBuckets self standing.now (capacity standing.now) firsts.now }
        ensures { collected room.new result ≡ push_all (collected room.old start) (listed self y_low y_high standing.now
            entries.now starts.now moving.now x (capacity moving.now) 0) }
    {
        let mut n = start;
        let count = trapezoid::capacity(moving);
        for j in 0..count {
            let q = trapezoid::load(moving, j);
            let m = Moving::new(q, x, y_low, y_high);
            n = list_moving(self, m, standing, entries, starts, room, n, firsts);
        }
        n
    }
}

impl Moving {
    pub fn new(q: Trapezoid, x: f64, y_low: f64, y_high: f64) -> Moving
        ensures { result ≡ moving_of q x y_low y_high }
    {
        Moving {
            strip: q,
            x,
            x0: q.x0 + x,
            x1: q.x1 + x,
            y_low,
            y_high,
        }
    }
}

// The number at e of entries or of kept buckets. They are read here alone; `moves` copies entries.
pub fn entry(entries: &[Entry], e: usize) -> usize
    requires { e < length entries.now }
    ensures { result ≡ get_or entries.now e 0 }
{
    usize::from(entries[e])
}

// The smaller of two.
pub fn fewer(a: usize, b: usize) -> usize
    ensures { result ≡ min a b }
{
    a.min(b)
}

// How many standing strips a room and its room of kept buckets are used for: at most as many as
// entries can name.
pub fn standing_capacity(room: &[f64], firsts: &[Bucket]) -> usize
    ensures { result ≡ standing_capacity room.now firsts.now }
{
    let n = trapezoid::capacity(room).min(firsts.len());
    n.min(STRIP_NUMBERS)
}

// The forbidden heights of a pair that meets over a..b.
fn heights(p: Trapezoid, m: Moving, a: f64, b: f64) -> Interval
    ensures { result ≡ heights_of p m a b }
{
    let q = m.strip;
    let pa = p.at(a);
    let pb = p.at(b);
    let qa = q.at(a - m.x);
    let qb = q.at(b - m.x);
    Interval {
        from: numbers::smaller(pa.low - qa.high, pb.low - qb.high),
        to: numbers::larger(pa.high - qa.low, pb.high - qb.low),
    }
}

// The forbidden heights of one pair.
pub fn forbidden(m: Moving, p: Trapezoid) -> Option<Interval>
    ensures { result ≡ meeting_at m p }
{
    let a = numbers::larger(p.x0, m.x0);
    let b = numbers::smaller(p.x1, m.x1);
    if a < b {
        return Some(heights(p, m, a, b));
    }
    None
}

// Whether an interval counts.
pub fn counts(i: Interval, y_low: f64, y_high: f64) -> bool
    ensures { result ≡ counts_of y_low y_high i }
{
    i.from < i.to && y_low < i.to && i.from < y_high
}

// Appends an interval to the n of the room, or answers one more than fit: a number, as `forbidden` does,
// so that the listing goes on without a test for each interval.
fn push(room: &mut [f64], n: usize, i: Interval) -> usize
    ensures { collected room.new result ≡ push (collected room.old n) i }
{
    let cap = room.len() / 2;
    if n < cap {
        room[2 * n] = i.from;
        room[2 * n + 1] = i.to;
        return n + 1;
    }
    cap + 1
}

// Appends the interval of a pair if it counts.
fn meet(m: Moving, p: Trapezoid, room: &mut [f64], n: usize) -> usize
    ensures { collected room.new result ≡ push_all (collected room.old n) (pair_of m p) }
{
    let Some(i) = forbidden(m, p) else {
        return n;
    };
    if counts(i, m.y_low, m.y_high) {
        return push(room, n, i);
    }
    n
}

// The same for the standing strip i in the bucket b where that is the first that both strips have.
fn meet_once(
    m: Moving,
    first: usize,
    b: usize,
    standing: &[f64],
    i: usize,
    room: &mut [f64],
    n: usize,
    firsts: &[Bucket],
) -> usize
    requires { (6 * i + 6 ≤ length standing.now) × (i < length firsts.now) }
    ensures { collected room.new result ≡ push_all (collected room.old n)
        (entry_by m first b (get_or firsts.now i 0) (strip_at standing.now i)) }
{
    if b == first || entry(firsts, i) == b {
        return meet(m, trapezoid::load(standing, i), room, n);
    }
    n
}

// The entries from `from` to below `to`, all of the bucket b.
fn list_entries(
    m: Moving,
    first: usize,
    b: usize,
    standing: &[f64],
    entries: &[Entry],
    from: usize,
    to: usize,
    room: &mut [f64],
    start: usize,
    firsts: &[Bucket],
) -> usize
    requires { (to ≤ length entries.now) × ((e : ℕ) → from ≤ e → e < to → 6 * get_or entries.now e 0 + 6 ≤ length standing.now) ×
        (capacity standing.now ≤ length firsts.now) }
    ensures { collected room.new result ≡ push_all (collected room.old start) (list_entries_by m first b standing.now
        firsts.now entries.now (to - from) from) }
{
    let mut n = start;
    for e in from..to {
        let i = entry(entries, e);
        n = meet_once(m, first, b, standing, i, room, n, firsts);
    }
    n
}

// The buckets of one moving strip.
fn list_moving(
    ix: Index,
    m: Moving,
    standing: &[f64],
    entries: &[Entry],
    starts: &[usize],
    room: &mut [f64],
    start: usize,
    firsts: &[Bucket],
) -> usize
    requires { Usable standing.now entries.now starts.now × FirstBuckets ix standing.now (capacity standing.now) firsts.now }
    ensures { collected room.new result ≡ push_all (collected room.old start)
        (list_moving ix standing.now entries.now starts.now m) }
{
    let mut n = start;
    let first = ix.bucket(m.x0);
    let last = ix.bucket(m.x1);
    for b in first..last + 1 {
        let from = starts[b];
        let to = starts[b + 1];
        n = list_entries(m, first, b, standing, entries, from, to, room, n, firsts);
    }
    n
}
