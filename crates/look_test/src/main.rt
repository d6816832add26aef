// Replays stored looks: each is made twice, with a room of exactly its counted intervals and with one
// fewer, and its two answers are printed. A look is a head of 45 bytes (the number of strips of the
// sheet, of the placed copies, inset and apart, and of intervals, one byte each; then the sheet's
// left and right end, the column's x, y_low and y_high by their bits), then all strips by their bits.
// `se`, `ss` and `sf` are the sheet's entries, starts and first buckets, `pe`, `ps` and `pf` those of
// the placed strips `put`.
// The stored answers are those of the lifted Rust (oracle/samples/look.py), never of this code.
#![tactic(auto)]

mod input;
mod show;

ghost use Rattle.std.specs.Prelude.{◌≡◌, true, ℕ, ◌+◌, ◌*◌, ◌≤◌, ◌<◌, length, get_or};
ghost use Rattle.std.specs.Float.{nan};
ghost use Rattle.trapezoid.specs.Strip.{capacity};
ghost use Rattle.index.specs.Buckets.{buckets};
ghost use Rattle.index.specs.inner.Listing.{Bounded, FirstBuckets};
ghost use Rattle.look.specs.inner.Ready.{Lookable};
ghost use Rattle.look_test.specs.inner.Fair.{FairColumn, FairStrips, Entered};

use index::{Bucket, Entry, Index};

// Whether x is at most 1,000,000 either way.
fn bounded(x: f64) -> bool
    ensures { result ≡ true → Bounded 1000000 x }
{
    -1000000.0 <= x && x <= 1000000.0
}

// Whether all numbers are.
fn all_bounded(xs: &[f64]) -> bool
    ensures { result ≡ true → (i : ℕ) → i < length xs.now → Bounded 1000000 (get_or xs.now i nan) }
{
    for &x in xs {
        if !bounded(x) {
            return false;
        }
    }
    true
}

fn fair_column(x0: f64, x1: f64, x: f64, low: f64, high: f64) -> bool
    ensures { result ≡ true → FairColumn x0 x1 x low high }
{
    all_bounded(&[x0, x1, x, low, high])
}

fn fair_strips(sheet: &[f64], placed: &[f64], inset: &[f64], apart: &[f64]) -> bool
    ensures { result ≡ true → FairStrips sheet.now placed.now inset.now apart.now }
{
    all_bounded(sheet) && all_bounded(placed) && all_bounded(inset) && all_bounded(apart)
}

// Enters all strips into empty buckets; whether their entries fit.
fn enter_all(
    ix: Index,
    standing: &[f64],
    entries: &mut [Entry],
    starts: &mut [usize],
    gains: &mut [usize],
    firsts: &mut [Bucket],
) -> bool
    requires { (length standing.now ≤ 6120) × (length starts.old ≡ buckets + 1) × (length gains.old ≡ buckets) × (1020 ≤ length firsts.old) }
    ensures { result ≡ true → Entered ix standing.now entries.new starts.new firsts.new }
{
    starts.fill(0);
    let n = trapezoid::capacity(standing);
    enter::enter_copy(ix, standing, 0, n, entries, starts, gains, firsts)
}

// The same for the sheet and for the placed copies.
fn enter_both(
    ix: Index,
    sheet: &[f64],
    placed: &[f64],
    se: &mut [Entry],
    ss: &mut [usize],
    pe: &mut [Entry],
    ps: &mut [usize],
    gains: &mut [usize],
    sf: &mut [Bucket],
    pf: &mut [Bucket],
) -> bool
    requires { (length sheet.now ≤ 6120) × (length placed.now ≤ 6120) × (length ss.old ≡ buckets + 1) × (length ps.old ≡ buckets + 1)
        × (length gains.old ≡ buckets) × (1020 ≤ length sf.old) × (1020 ≤ length pf.old) }
    ensures { result ≡ true → Entered ix sheet.now se.new ss.new sf.new
        × Entered ix placed.now pe.new ps.new pf.new }
{
    enter_all(ix, sheet, se, ss, gains, sf) && enter_all(ix, placed, pe, ps, gains, pf)
}

// A look with the whole room, then with one interval fewer.
fn look_twice(
    ix: Index,
    x: f64,
    lo: f64,
    hi: f64,
    inset: &[f64],
    apart: &[f64],
    sheet: &[f64],
    se: &[Entry],
    ss: &[usize],
    put: &[f64],
    pe: &[Entry],
    ps: &[usize],
    out: &mut [f64],
    sf: &[Bucket],
    pf: &[Bucket],
)
    requires { Lookable ix x lo hi inset.now apart.now sheet.now put.now se.now ss.now pe.now ps.now
        × FirstBuckets ix sheet.now (capacity sheet.now) sf.now × FirstBuckets ix put.now (capacity put.now) pf.now }
{
    let a = look::look_at(
        ix, x, lo, hi, inset, apart, sheet, se, ss, put, pe, ps, out, sf, pf,
    );
    show::show(a);
    let n = out.len();
    if n > 0 {
        let m = n - 1;
        let b = look::look_at(
            ix,
            x,
            lo,
            hi,
            inset,
            apart,
            sheet,
            se,
            ss,
            put,
            pe,
            ps,
            &mut out[..m],
            sf,
            pf,
        );
        show::show(b);
    }
}

// A table of entries. The `ensures` gives the length, which lending it as a slice needs.
fn table() -> [Entry; 130560]
    ensures { 130560 ≡ length result }
{
    [1; 130560]
}

// A look with tables that hold ones before.
fn look_fresh(
    x0: f64,
    x1: f64,
    x: f64,
    lo: f64,
    hi: f64,
    sheet: &[f64],
    put: &[f64],
    inset: &[f64],
    apart: &[f64],
    out: &mut [f64],
)
    requires { FairColumn x0 x1 x lo hi × FairStrips sheet.now put.now inset.now apart.now × (length sheet.now ≤ 6120)
        × (length put.now ≤ 6120) }
{
    let mut se = table();
    let mut ss = [1usize; 513];
    let mut pe = table();
    let mut ps = [1usize; 513];
    let mut gains = [1usize; 512];
    let mut sf = [1u16; 1020];
    let mut pf = [1u16; 1020];
    let ix = Index::new(x0, x1);
    if enter_both(
        ix, sheet, put, &mut se, &mut ss, &mut pe, &mut ps, &mut gains, &mut sf, &mut pf,
    ) {
        look_twice(
            ix, x, lo, hi, inset, apart, sheet, &se, &ss, put, &pe, &ps, out, &sf, &pf,
        );
        return;
    }
    show::show_bad();
}

// The answers to one look.
fn replay(head: &[u8], sheet: &[f64], put: &[f64], inset: &[f64], apart: &[f64], out: &mut [f64])
    requires { (45 ≡ length head.now) × (length sheet.now ≤ 6120) × (length put.now ≤ 6120) }
{
    let x0 = input::double(head, 5);
    let x1 = input::double(head, 13);
    let x = input::double(head, 21);
    let lo = input::double(head, 29);
    let hi = input::double(head, 37);
    if fair_column(x0, x1, x, lo, hi) && fair_strips(sheet, put, inset, apart) {
        look_fresh(x0, x1, x, lo, hi, sheet, put, inset, apart, out);
        return;
    }
    show::show_bad();
}

// A count of the head.
fn count(head: &[u8], at: usize) -> usize
    requires { at < length head.now }
    ensures { result ≤ 255 }
{
    usize::from(head[at])
}

// How many numbers a head's strips have.
fn numbers_of(head: &[u8]) -> usize
    requires { 45 ≡ length head.now }
    ensures { result ≤ 6120 }
{
    6 * (count(head, 0) + count(head, 1) + count(head, 2) + count(head, 3))
}

// Where the sheet's, placed, inset and apart strips end, and the numbers of the intervals.
#[derive(Clone, Copy)]
struct Ends {
    sheet: usize,
    placed: usize,
    inset: usize,
    apart: usize,
    room: usize,
}

fn ends_of(head: &[u8]) -> Ends
    requires { 45 ≡ length head.now }
    ensures { (result.sheet ≤ result.placed) × (result.placed ≤ result.inset) × (result.inset ≤ result.apart) × (result.apart ≤ 6120) × (result.room ≤ 510) }
{
    let a = 6 * count(head, 0);
    let b = a + 6 * count(head, 1);
    let c = b + 6 * count(head, 2);
    let d = c + 6 * count(head, 3);
    let n = 2 * count(head, 4);
    Ends {
        sheet: a,
        placed: b,
        inset: c,
        apart: d,
        room: n,
    }
}

// The look of a head and of all its strips.
fn replay_parts(head: &[u8], strips: &[f64], room: &mut [f64])
    requires { (45 ≡ length head.now) × (6120 ≡ length strips.now) × (510 ≡ length room.old) }
{
    let e = ends_of(head);
    replay(
        head,
        &strips[..e.sheet],
        &strips[e.sheet..e.placed],
        &strips[e.placed..e.inset],
        &strips[e.inset..e.apart],
        &mut room[..e.room],
    );
}

// One look of the input; whether there was one.
fn turn() -> bool {
    let mut head = [0u8; 45];
    let mut strips = [1.0f64; 6120];
    let mut room = [1.0f64; 510];
    let got = io::read_full(0, &mut head);
    if got < 45 {
        return false;
    }
    input::read_doubles(&mut strips[..numbers_of(&head)]);
    replay_parts(&head, &strips, &mut room);
    true
}

fn main() {
    for _ in 0..1000000 {
        if !turn() {
            break;
        }
    }
}
