// What a withdrawal (document 02, W4) reads of the standing copies: their strips, and how far to the
// right they reach. A copy's number in the layout is 0 for none, or 1 + orientation.
ghost use Rattle.std.specs.Prelude.{◌≡◌, ℕ, suc, ◌+◌, ◌-◌, ◌*◌, ◌^◌, ◌≤◌, ◌<◌, length};
ghost use Rattle.withdraw.specs.standing.inner.Standing.{Slotted, strips_at, strips_to, right_with, right_over};

// The strips of a copy of a kind.
pub fn strips_at(parts: &[usize], kind: usize, number: usize) -> usize
    requires { (4096 ≤ length parts.now) × ((o : ℕ) → number ≡ suc o → 16 * kind + o < 1024) }
    ensures { result ≡ strips_at parts.now kind number }
{
    if number == 0 {
        return 0;
    }
    let p = choose::part_at(parts, 16 * kind + (number - 1));
    p.apart_count
}

// The strips of the copies at the first n places.
pub fn strips_to(parts: &[usize], order: &[usize], orientation: &[usize], n: usize) -> usize
    requires { (4096 ≤ length parts.now) × (n ≤ length order.now) × (n ≤ length orientation.now) × Slotted order.now orientation.now n
        × (strips_to parts.now order.now orientation.now n < 2 ^ 64) }
    ensures { result ≡ strips_to parts.now order.now orientation.now n }
{
    let mut strips = 0;
    for i in 0..n {
        strips += strips_at(parts, order[i], orientation[i]);
    }
    strips
}

// Right with a copy of a kind at x.
fn right_with(inset_bounds: &[f64], right: f64, x: f64, kind: usize, number: usize) -> f64
    requires { (4096 ≤ length inset_bounds.now) × ((o : ℕ) → number ≡ suc o → 16 * kind + o < 1024) }
    ensures { result ≡ right_with inset_bounds.now right x kind number }
{
    if number == 0 {
        return right;
    }
    let b = choose::bounds_at(inset_bounds, 16 * kind + (number - 1));
    numbers::larger(right, x + b.right)
}

// Right with the copies at the places from `from` to below `to`.
pub fn right_over(
    inset_bounds: &[f64],
    order: &[usize],
    orientation: &[usize],
    x: &[f64],
    right: f64,
    from: usize,
    to: usize,
) -> f64
    requires { (4096 ≤ length inset_bounds.now) × (from ≤ to) × (to ≤ length order.now) × (to ≤ length orientation.now) × (to ≤ length x.now)
        × Slotted order.now orientation.now to }
    ensures { result ≡ right_over inset_bounds.now order.now orientation.now x.now right from (to - from) }
{
    let mut reach = right;
    for i in from..to {
        reach = right_with(inset_bounds, reach, x[i], order[i], orientation[i]);
    }
    reach
}
