// The strips of one slab (document 01, "Strips"): crossings of its edges, sorted, and winding.
// Edges, rows and strips lie in lent tables; `one_slab` is what the crate `strips` calls.
#![tactic(auto)]

mod winding;
pub mod xs;

ghost use Rattle.std.specs.Prelude.{◌≡◌, Bool, true, not, IsSome, ◌+◌, ◌-◌, ◌*◌, ◌≤◌, ◌<◌, length, pos};
ghost use Rattle.slabs.specs.Slab.{up, insert, spans, height_at, Crossing, crossing, ahead, before, crossings, strip, runs, walk, slab};
ghost use Rattle.slabs.specs.inner.Tables.{down, edge_at, row_at, set_row, crossing_of, crossing_at, behind, Orders, GatheredIs, Placed, put, hold};

// An edge from p to q, with the smaller and the larger of its x's.
#[derive(Clone, Copy)]
pub struct Edge {
    pub px: f64,
    pub py: f64,
    pub qx: f64,
    pub qy: f64,
    pub lo: f64,
    pub hi: f64,
}

// A crossing as it lies in the work table: d is 1.0 or -1.0.
#[derive(Clone, Copy)]
pub struct Row {
    pub ya: f64,
    pub yb: f64,
    pub d: f64,
}

// Whether an edge that is not vertical spans the slab.
#[tactic(auto, using(crate::proofs::Rows::unequal), unfolding(crate::specs::Slab::spans))]
fn spans(e: Edge, xa: f64, xb: f64) -> bool
    ensures { result ≡ spans xa xb e }
{
    e.lo <= xa && e.hi >= xb && e.px != e.qx
}

// The edge's height at x.
#[tactic(auto, unfolding(crate::specs::Slab::height_at))]
fn height_at(e: Edge, x: f64) -> f64
    ensures { result ≡ height_at e x }
{
    if x == e.px {
        return e.py;
    }
    if x == e.qx {
        return e.qy;
    }
    e.py + (x - e.px) / (e.qx - e.px) * (e.qy - e.py)
}

// The crossing of the edge with the slab.
fn cross(e: Edge, xa: f64, xb: f64) -> Row
    ensures { crossing_of result ≡ crossing xa xb e }
{
    let ya = height_at(e, xa);
    let yb = height_at(e, xb);
    let d = if e.px < e.qx { 1.0 } else { -1.0 };
    Row { ya, yb, d }
}

// Of two crossings with equal sums, whether a comes strictly before b.
#[tactic(auto, unfolding(crate::specs::Slab::ahead, crate::specs::Slab::positive, crate::specs::inner::Tables::crossing_of))]
fn ahead(a: Row, b: Row) -> bool
    ensures { result ≡ ahead (crossing_of a) (crossing_of b) }
{
    let rises = a.d > 0.0;
    if rises == (b.d > 0.0) {
        a.ya < b.ya
    } else {
        rises
    }
}

// Whether a comes strictly before b.
#[tactic(auto, unfolding(crate::specs::Slab::before, crate::specs::inner::Tables::crossing_of))]
fn before(a: Row, b: Row) -> bool
    ensures { result ≡ before (crossing_of a) (crossing_of b) }
{
    let s = a.ya + a.yb;
    let t = b.ya + b.yb;
    s < t || s == t && ahead(a, b)
}

// The edge number i of the table.
#[tactic(auto, unfolding(crate::specs::inner::Tables::edge_at))]
pub fn edge_at(es: &[f64], i: usize) -> Edge
    requires { 6 * i + 6 ≤ length es.now }
    ensures { result ≡ edge_at es.now i }
{
    let at = 6 * i;
    Edge {
        px: es[at],
        py: es[at + 1],
        qx: es[at + 2],
        qy: es[at + 3],
        lo: es[at + 4],
        hi: es[at + 5],
    }
}

// The row number i of the table.
#[tactic(auto, unfolding(crate::specs::inner::Tables::row_at))]
fn row_at(rows: &[f64], i: usize) -> Row
    requires { 3 * i + 3 ≤ length rows.now }
    ensures { result ≡ row_at rows.now i }
{
    let at = 3 * i;
    Row {
        ya: rows[at],
        yb: rows[at + 1],
        d: rows[at + 2],
    }
}

// The row number i of the table becomes c.
#[tactic(auto, unfolding(crate::specs::inner::Tables::set_row))]
fn put_row(rows: &mut [f64], i: usize, c: Row)
    requires { 3 * i + 3 ≤ length rows.old }
    ensures { rows.new ≡ set_row rows.old i c }
{
    let at = 3 * i;
    rows[at] = c.ya;
    rows[at + 1] = c.yb;
    rows[at + 2] = c.d;
}

// Whether a crossing b stays before a later edge's crossing a.
#[tactic(auto, unfolding(crate::specs::inner::Tables::behind))]
fn behind(b: Row, a: Row) -> bool
    ensures { result ≡ behind (crossing_of b) (crossing_of a) }
{
    !before(a, b)
}

// The crossing goes to its place among the n rows, whose first stands last: after those that `first`
// puts before it; how far from the end.
fn insert<F: Fn(Row, Row) -> bool>(rows: &mut [f64], n: usize, c: Row, first: F) -> usize
    requires room { 3 * n + 3 ≤ length rows.old }
    requires calls { F.IsAlwaysCallable first }
    ensures { (order : Crossing → Crossing → Bool) → Orders (F.post first) order → down (crossing_at rows.new) (n + 1) ≡ insert order (crossing_of c)
        (down (crossing_at rows.old) n) }
{
    for k in (0..n).rev() {
        let b = row_at(rows, k);
        if !first(b, c) {
            put_row(rows, k + 1, c);
            return n - 1 - k;
        }
        put_row(rows, k + 1, b);
    }
    put_row(rows, 0, c);
    n
}

// What is left of an allowance after an insertion that far from the end.
fn spend(left: usize, far: usize) -> usize
    ensures { left ≤ result + 1 }
{
    if far > 8 {
        left.saturating_sub(1)
    } else {
        left
    }
}

// The crossings of the slab from xa to xb, first last; how many. Gives up where `allowance` insertions
// were far from the end.
fn gather_down(
    es: &[f64],
    count: usize,
    xa: f64,
    xb: f64,
    rows: &mut [f64],
    allowance: usize,
) -> Option<usize>
    requires { (6 * count ≤ length es.now) × (3 * count ≤ length rows.old) × (0 < allowance) }
    ensures gathered { GatheredIs result rows.new count xa xb (up (edge_at es.now) 0 count) }
    ensures goes_on { count < allowance → IsSome result }
{
    let mut n = 0;
    let mut left = allowance;
    for i in (0..count).rev() {
        let e = edge_at(es, i);
        if spans(e, xa, xb) {
            let far = insert(rows, n, cross(e, xa, xb), before);
            n += 1;
            left = spend(left, far);
            if left == 0 {
                return None;
            }
        }
    }
    Some(n)
}

// Whether neither the crossing's sum nor its ya is a NaN, which has no place in an order.
fn placed(c: Row) -> bool
    ensures { result ≡ true → Placed (crossing_of c) }
{
    let s = c.ya + c.yb;
    !s.is_nan() && !c.ya.is_nan()
}

// As `gather_down`, from the first edge to the last; also gives up at a NaN. One loop for both would
// ask at each edge which way it goes.
fn gather_up(
    es: &[f64],
    count: usize,
    xa: f64,
    xb: f64,
    rows: &mut [f64],
    allowance: usize,
) -> Option<usize>
    requires { (6 * count ≤ length es.now) × (3 * count ≤ length rows.old) }
    ensures { GatheredIs result rows.new count xa xb (up (edge_at es.now) 0 count) }
{
    let mut n = 0;
    let mut left = allowance;
    for i in 0..count {
        let e = edge_at(es, i);
        if !spans(e, xa, xb) {
            continue;
        }
        let c = cross(e, xa, xb);
        if !placed(c) {
            return None;
        }
        let far = insert(rows, n, c, behind);
        n += 1;
        left = spend(left, far);
        if left == 0 {
            return None;
        }
    }
    Some(n)
}

// The crossings of the slab from xa to xb, first last; how many. Edges that mostly rise are walked
// from the last to the first, edges that mostly fall from the first to the last.
#[tactic(auto, unfolding(crate::specs::inner::Tables::GatheredIs))]
fn sorted_rows(es: &[f64], count: usize, xa: f64, xb: f64, rows: &mut [f64]) -> usize
    requires { (6 * count ≤ length es.now) × (3 * count ≤ length rows.old) }
    ensures { (result ≤ count) × (down (crossing_at rows.new) result ≡ crossings xa xb (up (edge_at es.now) 0 count)) }
{
    if let Some(m) = gather_down(es, count, xa, xb, rows, 8) {
        return m;
    }
    if let Some(m) = gather_up(es, count, xa, xb, rows, 8) {
        return m;
    }
    // the allowance for all edges is never spent
    gather_down(es, count, xa, xb, rows, count + 1).unwrap()
}

// The strips of one slab, from its m crossings. Winding is counted from m, so that it stays positive.
fn wind(
    rows: &[f64],
    m: usize,
    sheet: bool,
    bottom: f64,
    top: f64,
    xa: f64,
    xb: f64,
    room: &mut [f64],
    n: usize,
) -> usize
    requires { 3 * m ≤ length rows.now }
    ensures { record { room = room.exit.now; count = result } ≡ hold (record { room = room.entry.now; count = n })
        (walk sheet top xa xb (pos 0) bottom bottom (down (crossing_at rows.now) m)) }
{
    let mut w = m;
    let mut la = bottom;
    let mut lb = bottom;
    let mut count = n;
    for k in (0..m).rev() {
        let c = row_at(rows, k);
        let was = winding::runs(sheet, m, w);
        w = winding::turned(w, c.d);
        let is = winding::runs(sheet, m, w);
        let s = winding::strip(xa, xb, la, lb, c.ya, c.yb);
        count = winding::close(was && !is, room, count, s);
        if !was {
            la = c.ya;
            lb = c.yb;
        }
    }
    let s = winding::strip(xa, xb, la, lb, top, top);
    winding::close(sheet && winding::runs(sheet, m, w), room, count, s)
}

// The strips of the slab from xa to xb go into the room from number n on; how many it then holds, or
// one more than fit. `es` holds `edges` edges; `rows` is a work table.
pub fn one_slab(
    es: &[f64],
    edges: usize,
    sheet: bool,
    bottom: f64,
    top: f64,
    xa: f64,
    xb: f64,
    rows: &mut [f64],
    room: &mut [f64],
    n: usize,
) -> usize
    requires { (6 * edges ≤ length es.now) × (3 * edges ≤ length rows.old) }
    ensures { record { room = room.exit.now; count = result } ≡ hold (record { room = room.entry.now; count = n })
        (slab (up (edge_at es.now) 0 edges) sheet bottom top xa xb) }
{
    let m = sorted_rows(es, edges, xa, xb, rows);
    wind(rows, m, sheet, bottom, top, xa, xb, room, n)
}
