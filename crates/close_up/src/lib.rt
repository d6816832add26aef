// Closing up where a copy went (document 02, W4): an order, the places of a layout; the placed strips,
// their entries and first buckets. Only crates of ours call these functions.
#![tactic(auto)]

ghost use Rattle.std.specs.Prelude.{◌≡◌, ◌+◌, ◌*◌, ◌≤◌, ◌<◌, length, take};
ghost use Rattle.numbers.specs.Numbers.{pos_zero};
ghost use Rattle.trapezoid.specs.Strip.{capacity};
ghost use Rattle.index.specs.Buckets.{strip_numbers, entries_of, firsts_of};
ghost use Rattle.filling.specs.Rooms.{laid, zeros};
ghost use Rattle.filling.specs.Withdraw.{closed_up, strips_left};

use index::{Bucket, Entry, Index};

// Of the first m elements that at n goes, those behind it move up, and v stands at their end.
pub fn close<T: Copy>(xs: &mut [T], n: usize, m: usize, v: T)
    requires { (n < m) × (m ≤ length xs.old) }
    ensures { xs.new ≡ closed_up n m v xs.old }
{
    xs.copy_within(n + 1..m, n);
    xs[m - 1] = v;
}

// Of the first n strips the k from number a on go, those behind them move up, and zeros follow to the
// room's end.
pub fn close_strips(placed: &mut [f64], a: usize, k: usize, n: usize)
    requires { (a + k ≤ n) × (6 * n ≤ length placed.old) }
    ensures { placed.new ≡ laid (strips_left a k (take (6 * n) placed.old)) (zeros pos_zero placed.old) }
{
    let by = 6 * k;
    let to = 6 * n;
    let end = to - by;
    placed.copy_within(6 * a + by..to, 6 * a);
    placed[end..].fill(0.0);
}

// Of the first n placed strips the k from number a on go: strips, entries and first buckets close up,
// and zeros follow to the end of all three rooms.
pub fn close_rooms(
    ix: Index,
    placed: &mut [f64],
    a: usize,
    k: usize,
    n: usize,
    entries: &mut [Entry],
    firsts: &mut [Bucket],
)
    requires { (a + k ≤ n) × (6 * n ≤ length placed.old) × (n ≤ strip_numbers) × (n ≤ length firsts.old)
        × (length (entries_of ix (take (6 * n) placed.old) n) ≤ length entries.old) }
    ensures { (placed.new ≡ laid (strips_left a k (take (6 * n) placed.old)) (zeros pos_zero placed.old))
        × (entries.new ≡ laid (entries_of ix (strips_left a k (take (6 * n) placed.old))
        (capacity (strips_left a k (take (6 * n) placed.old)))) (zeros 0 entries.old))
        × (firsts.new ≡ laid (firsts_of ix (strips_left a k (take (6 * n) placed.old))
        (capacity (strips_left a k (take (6 * n) placed.old)))) (zeros 0 firsts.old)) }
{
    close_strips(placed, a, k, n);
    entries.fill(0);
    firsts.fill(0);
    let mut starts = [0; Index::BUCKETS + 1];
    let mut gains = [0; Index::BUCKETS];
    let left = n - k;
    let end = 6 * left;
    enter::enter_copy(
        ix,
        &placed[..end],
        0,
        left,
        entries,
        &mut starts,
        &mut gains,
        firsts,
    );
}
