// The strips of a set of loops (document 01, "Strips"): nesting.rs's `bounds` and `trapezoids`.
// A set's points lie as x, y, x, y, ..; each loop ends before the point that `ends` says. The work
// tables are lent by the caller. Only crates of ours call these functions, so they may require that
// the tables are long enough and that the loops lie in the points.
#![tactic(auto)]

ghost use Rattle.std.specs.Prelude.{◌≡◌, ◌++◌, ℕ, ◌+◌, ◌-◌, ◌*◌, ◌≤◌, ◌<◌, length, get_or};
ghost use Rattle.std.specs.Float.{nan};
ghost use Rattle.slabs.specs.Slab.{up};
ghost use Rattle.slabs.specs.inner.Tables.{down, edge_at, set_edge, Held, hold};
ghost use Rattle.strips.specs.inner.Tables.{slanted, Loops, Stowed, strips_stored};
ghost use Rattle.strips.specs.Strips.{distinct, widened, bounds, edge, after, loop_edges, edges, strips_between, slabs, trapezoids};

use slabs::Edge;

// A bounding box, in nesting.rs's order: smallest x, smallest y, largest x, largest y.
#[derive(Clone, Copy)]
pub struct Rect {
    pub left: f64,
    pub bottom: f64,
    pub right: f64,
    pub top: f64,
}

#[tactic(auto, unfolding(crate::specs::Strips::widened))]
fn widened(b: Rect, x: f64, y: f64) -> Rect
    ensures { result ≡ widened b x y }
{
    Rect {
        left: numbers::smaller(b.left, x),
        bottom: numbers::smaller(b.bottom, y),
        right: numbers::larger(b.right, x),
        top: numbers::larger(b.top, y),
    }
}

// The bounds of the first n points.
pub fn bounds(points: &[f64], n: usize) -> Rect
    requires { (0 < n) × (2 * n ≤ length points.now) }
    ensures { result ≡ bounds points.now n }
{
    let x = points[0];
    let y = points[1];
    let mut b = Rect {
        left: x,
        bottom: y,
        right: x,
        top: y,
    };
    for i in 0..n {
        b = widened(b, points[2 * i], points[2 * i + 1]);
    }
    b
}

// The edge from point i to point j.
#[tactic(auto, unfolding(crate::specs::Strips::edge, crate::specs::Strips::x_of, crate::specs::Strips::y_of))]
fn edge(points: &[f64], i: usize, j: usize) -> Edge
    requires { (2 * i + 2 ≤ length points.now) × (2 * j + 2 ≤ length points.now) }
    ensures { result ≡ edge points.now i j }
{
    let px = points[2 * i];
    let qx = points[2 * j];
    Edge {
        px,
        py: points[2 * i + 1],
        qx,
        qy: points[2 * j + 1],
        lo: numbers::smaller(px, qx),
        hi: numbers::larger(px, qx),
    }
}

// The edge number i of the table becomes e.
#[tactic(auto, unfolding(slabs::specs::inner::Tables::set_edge))]
fn set_edge(es: &mut [f64], i: usize, e: Edge)
    requires { 6 * i + 6 ≤ length es.old }
    ensures { es.new ≡ set_edge es.old i e }
{
    let at = 6 * i;
    es[at] = e.px;
    es[at + 1] = e.py;
    es[at + 2] = e.qx;
    es[at + 3] = e.qy;
    es[at + 4] = e.lo;
    es[at + 5] = e.hi;
}

// The point after i in a loop from `first` to before `end`.
fn next(first: usize, i: usize, end: usize) -> usize
    requires { i < end }
    ensures { result ≡ after first i (end - (i + 1)) }
{
    if i + 1 < end { i + 1 } else { first }
}

// The edges of one loop, each in the place of its first point.
fn loop_edges(points: &[f64], first: usize, end: usize, es: &mut [f64])
    requires { (first ≤ end) × (2 * end ≤ length points.now) × (6 * end ≤ length es.old) }
    ensures { up (edge_at es.new) 0 end ≡ up (edge_at es.old) 0 first ++ loop_edges points.now first first (end - first) }
{
    for i in first..end {
        let j = next(first, i, end);
        set_edge(es, i, edge(points, i, j));
    }
}

// The edges of all loops.
fn edges(points: &[f64], n: usize, ends: &[u16], es: &mut [f64])
    requires { (2 * n ≤ length points.now) × (6 * n ≤ length es.old) × Loops 0 ends.now n }
    ensures { up (edge_at es.new) 0 n ≡ edges points.now 0 ends.now }
{
    let mut first = 0;
    for e in ends {
        let end = usize::from(*e);
        loop_edges(points, first, end, es);
        first = end;
    }
}

// Of the n edges those that are not vertical, moved together; how many.
fn drop_vertical(es: &mut [f64], n: usize) -> usize
    requires { 6 * n ≤ length es.old }
    ensures { (result ≤ n) × (up (edge_at es.new) 0 result ≡ slanted (up (edge_at es.old) 0 n)) }
{
    let mut m = 0;
    for i in 0..n {
        let e = slabs::edge_at(es, i);
        if e.px == e.qx {
            continue;
        }
        set_edge(es, m, e);
        m += 1;
    }
    m
}

// The strips between two neighbouring x's go into the room from number n on.
fn between(
    es: &[f64],
    count: usize,
    sheet: bool,
    bottom: f64,
    top: f64,
    xa: f64,
    xb: f64,
    rows: &mut [f64],
    room: &mut [f64],
    n: usize,
) -> usize
    requires { (6 * count ≤ length es.now) × (3 * count ≤ length rows.old) }
    ensures { record { room = room.exit.now; count = result } ≡ hold (record { room = room.entry.now; count = n })
        (strips_between (up (edge_at es.now) 0 count) sheet bottom top xa xb) }
{
    if xa < xb {
        slabs::one_slab(es, count, sheet, bottom, top, xa, xb, rows, room, n)
    } else {
        n
    }
}

// The strips of the slabs between the m x's, first last, without equal ones.
fn slabs(
    line: &[f64],
    m: usize,
    es: &[f64],
    count: usize,
    sheet: bool,
    bottom: f64,
    top: f64,
    rows: &mut [f64],
    room: &mut [f64],
    from: usize,
) -> usize
    requires { (0 < m) × (m ≤ length line.now) × (6 * count ≤ length es.now) × (3 * count ≤ length rows.old) }
    ensures { record { room = room.exit.now; count = result } ≡ hold (record { room = room.entry.now; count = from })
        (slabs (up (edge_at es.now) 0 count) sheet bottom top (distinct (down (λ (i : ℕ). get_or line.now i nan) m))) }
{
    let mut xa = line[m - 1];
    let mut held = from;
    for k in (0..m - 1).rev() {
        let xb = line[k];
        if xa != xb {
            held = between(es, count, sheet, bottom, top, xa, xb, rows, room, held);
            xa = xb;
        }
    }
    held
}

// The strips of a set go into the room after the `from` strips that it holds; how many it then
// holds, or one more than fit.
fn add_strips(
    points: &[f64],
    n: usize,
    ends: &[u16],
    sheet: bool,
    es: &mut [f64],
    rows: &mut [f64],
    line: &mut [f64],
    room: &mut [f64],
    from: usize,
) -> usize
    requires { (0 < n) × (2 * n ≤ length points.now) × Loops 0 ends.now n × (6 * n ≤ length es.old) × (3 * n ≤ length rows.old)
        × (n + 2 ≤ length line.old) }
    ensures { record { room = room.exit.now; count = result } ≡ hold (record { room = room.entry.now; count = from })
        (trapezoids points.now n ends.now sheet) }
{
    let b = bounds(points, n);
    let m = slabs::xs::sort_xs(points, n, sheet, b.left, b.right, line, rows);
    edges(points, n, ends, es);
    let count = drop_vertical(es, n);
    slabs(line, m, es, count, sheet, b.bottom, b.top, rows, room, from)
}

// The strips of the set with the first n points, stored from strip number `from` on; or that they
// exceed the room. `es`, `rows` and `line` are work tables of 6 n, 3 n and n + 2 numbers.
pub fn trapezoids(
    points: &[f64],
    n: usize,
    ends: &[u16],
    sheet: bool,
    es: &mut [f64],
    rows: &mut [f64],
    line: &mut [f64],
    room: &mut [f64],
    from: usize,
) -> Option<usize>
    requires { (0 < n) × (2 * n ≤ length points.now) × Loops 0 ends.now n × (6 * n ≤ length es.old) × (3 * n ≤ length rows.old)
        × (n + 2 ≤ length line.old) × (6 * from ≤ length room.old) }
    ensures { record { answer = result; room = room.new } ≡ strips_stored (trapezoids points.now n ends.now sheet)
        room.old from }
{
    let count = add_strips(points, n, ends, sheet, es, rows, line, room, from);
    if trapezoid::capacity(room) < count {
        None
    } else {
        Some(count - from)
    }
}
