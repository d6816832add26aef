// The offcut (document 02, W2): the sheet's right edge minus the larger of right and the largest x1
// of a placed apart strip, zero if that is below zero.
ghost use Rattle.std.specs.Prelude.{◌≡◌, ◌≤◌, length};
ghost use Rattle.numbers.specs.Numbers.{◌⊖◌};
ghost use Rattle.filling.specs.Accounts.{not_below_zero};
ghost use Rattle.report.specs.offcut.inner.Reaching.{reach_moved, reach_copy, reach_to};

// The larger of a and the x1 of each of the strips, moved by x.
fn reach_moved(part: &[f64], x: f64, a: f64) -> f64
    ensures { result ≡ reach_moved part.now x a }
{
    let count = trapezoid::capacity(part);
    let mut reach = a;
    for i in 0..count {
        let q = trapezoid::load(part, i);
        reach = numbers::larger(reach, q.x1 + x);
    }
    reach
}

// The same of a copy's apart strips: its kind, its orientation's number in a layout (0 for no
// place), its x.
fn reach_copy(parts: &[usize], shapes: &[f64], kind: usize, number: usize, x: f64, a: f64) -> f64
    requires { 4096 ≤ length parts.now }
    ensures { result ≡ reach_copy parts.now shapes.now kind number x a }
{
    if number == 0 || 64 <= kind || 16 < number {
        return a;
    }
    let at = 4 * (16 * kind + (number - 1));
    let part = trapezoid::part_of(shapes, parts[at], parts[at + 1]);
    reach_moved(part, x, a)
}

// The same of every copy that stands.
fn reach(
    order: &[usize],
    orientation: &[usize],
    x: &[f64],
    parts: &[usize],
    shapes: &[f64],
    right: f64,
) -> f64
    requires { (length order.now ≤ length orientation.now) × (length order.now ≤ length x.now) × (4096 ≤ length parts.now) }
    ensures { result ≡ reach_to parts.now shapes.now order.now orientation.now
        x.now right (length order.now) }
{
    let n = order.len();
    let mut reach = right;
    for i in 0..n {
        reach = reach_copy(parts, shapes, order[i], orientation[i], x[i], reach);
    }
    reach
}

// The offcut of a layout; the apart strips begin the shapes room. Only crates of ours call it: the
// layout must hold every copy of the order, the parts every slot.
pub fn offcut(
    order: &[usize],
    orientation: &[usize],
    x: &[f64],
    parts: &[usize],
    shapes: &[f64],
    right: f64,
    sheet_right: f64,
) -> f64
    requires { (length order.now ≤ length orientation.now) × (length order.now ≤ length x.now) × (4096 ≤ length parts.now) }
    ensures { result ≡ not_below_zero (sheet_right ⊖ reach_to parts.now shapes.now order.now
        orientation.now x.now right (length order.now)) }
{
    let end = reach(order, orientation, x, parts, shapes, right);
    let left = sheet_right - end;
    if left < 0.0 {
        return 0.0;
    }
    left
}
