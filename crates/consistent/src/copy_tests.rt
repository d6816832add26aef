// What refusal 31 asks of the standing copies (document 02, W4): an orientation that the kind has, a
// position within bounds, and that the placed strips are theirs, in order and no others. Only crates
// of ours call them.
ghost use Rattle.std.specs.Prelude.{◌≡◌, ◌&&◌, ℕ, ◌+◌, ◌*◌, ◌≤◌, ◌<◌, length, get_or};
ghost use Rattle.filling.specs.Consistent.{bounded};
ghost use Rattle.consistent.specs.copy_tests.inner.Copies.{held, lies_test, turn_test, past_copy, copies_test};

use crate::{slot_tests, strip_tests};

// Whether the strips of a part, moved by x and y, lie in the room from strip `at` on.
fn strips_lie(part: &[f64], x: f64, y: f64, placed: &[f64], at: usize) -> bool
    ensures { result ≡ lies_test part.now x y placed.now at }
{
    let n = trapezoid::capacity(part);
    slot_tests::within(at, n, trapezoid::capacity(placed))
        && (0..n).all(|i| trapezoid::load(placed, at + i) == trapezoid::load(part, i).moved(x, y))
}

// Whether the kind has this orientation; rows hold how many each has, four numbers to a kind.
#[tactic(auto, unfolding(crate::specs::copy_tests::inner::Copies::turn_test))]
fn turn_fits(rows: &[u64], kinds: usize, kind: usize, o: usize) -> bool
    requires { (kinds ≤ 64) × (256 ≤ length rows.now) }
    ensures { result ≡ turn_test rows.now kinds kind o }
{
    kind < kinds && o < rows[4 * kind + 3] as usize
}

// Whether a copy of the kind may stand so: an orientation that the kind has, a position within bounds.
fn may_stand(rows: &[u64], kinds: usize, kind: usize, o: usize, x: f64, y: f64) -> bool
    requires { (kinds ≤ 64) × (256 ≤ length rows.now) }
    ensures { result ≡ (turn_test rows.now kinds kind o && (bounded x && bounded y)) }
{
    turn_fits(rows, kinds, kind, o) && strip_tests::bounded(x) && strip_tests::bounded(y)
}

// Past the strips of a copy, which are to begin at strip `at`; its number in the layout is 0 where it
// has no place.
fn past_copy(
    rows: &[u64],
    kinds: usize,
    parts: &[usize],
    apart: &[f64],
    placed: &[f64],
    kind: usize,
    x: f64,
    y: f64,
    number: usize,
    at: usize,
) -> Option<usize>
    requires { (kinds ≤ 64) × (256 ≤ length rows.now) × ((k : ℕ) → k < kinds → get_or rows.now (4 * k + 3) 0 ≤ 16) × (4096 ≤ length parts.now) }
    ensures { result ≡ past_copy (held rows.now kinds parts.now apart.now placed.now) kind x y number at }
{
    if number == 0 {
        return Some(at);
    }
    let o = number - 1;
    if !may_stand(rows, kinds, kind, o, x, y) {
        return None;
    }
    let p = choose::part_at(parts, 16 * kind + o);
    let part = trapezoid::part_of(apart, p.apart_start, p.apart_count);
    if !strips_lie(part, x, y, placed, at) {
        return None;
    }
    Some(at + trapezoid::capacity(part))
}

// Whether the first `taken` copies stand as they may, and the placed strips are theirs.
pub fn copies_fit(
    rows: &[u64],
    kinds: usize,
    order: &[usize],
    orientation: &[usize],
    x: &[f64],
    y: &[f64],
    taken: usize,
    parts: &[usize],
    apart: &[f64],
    placed: &[f64],
) -> bool
    requires { (kinds ≤ 64) × (256 ≤ length rows.now) × ((k : ℕ) → k < kinds → get_or rows.now (4 * k + 3) 0 ≤ 16) × (4096 ≤ length parts.now)
        × (taken ≤ length order.now) × (taken ≤ length orientation.now) × (taken ≤ length x.now) × (taken ≤ length y.now) }
    ensures { result ≡ copies_test (held rows.now kinds parts.now apart.now placed.now) order.now
        orientation.now x.now y.now taken 0 0 }
{
    let mut at = 0;
    for i in 0..taken {
        let Some(end) = past_copy(
            rows,
            kinds,
            parts,
            apart,
            placed,
            order[i],
            x[i],
            y[i],
            orientation[i],
            at,
        ) else {
            return false;
        };
        at = end;
    }
    at == trapezoid::capacity(placed)
}
