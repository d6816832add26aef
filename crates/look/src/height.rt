// The smallest height that lies in no interval of a room (document 01, "Filling", the look).
ghost use Rattle.std.specs.Prelude.{◌≡◌, ℕ, ◌+◌, ◌-◌, ◌*◌, ◌/◌, ◌≤◌, ◌<◌, length};
ghost use Rattle.numbers.proofs.Doubles.{Finite};
ghost use Rattle.index.specs.inner.Listing.{intervals, interval_at};
ghost use Rattle.look.specs.height.Smallest.{next_bottom, height_of};
ghost use Rattle.look.specs.height.inner.Raising.{lift, raised, lower, from_last, in_turn, swapped, Rearranged, FiniteEnds};

use index::Interval;

// A look's answer (document 01; 02, W7): a free height and the clear height above it, or full.
#[derive(Clone, Copy)]
pub enum Look {
    Free(f64, f64),
    Full,
}

// The pass after which the intervals are sorted: a few passes settle most looks.
const SORTED_AT: usize = 4;

// The top of the interval if y lies in it, else y.
fn lifted(y: f64, i: Interval) -> f64
    ensures { result ≡ lift y i }
{
    if i.from < y && y < i.to {
        return i.to;
    }
    y
}

// The interval number k of a room.
fn interval(room: &[f64], k: usize) -> Interval
    requires { 2 * k + 2 ≤ length room.now }
    ensures { result ≡ interval_at room.now k }
{
    Interval {
        from: room[2 * k],
        to: room[2 * k + 1],
    }
}

// The pass number `turn`: y goes up to the top of each interval that it lies in. Even passes run from
// the first interval to the last, odd ones back.
fn raise(room: &[f64], n: usize, from: f64, turn: usize) -> f64
    requires { 2 * n ≤ length room.now }
    ensures { result ≡ raised from (in_turn room.now n turn) }
{
    let mut y = from;
    if turn % 2 == 0 {
        for k in 0..n {
            y = lifted(y, interval(room, k));
        }
    } else {
        for k in (0..n).rev() {
            y = lifted(y, interval(room, k));
        }
    }
    y
}

// Exchanges the intervals number i and j.
fn swap(room: &mut [f64], i: usize, j: usize)
    requires { (2 * i + 2 ≤ length room.old) × (2 * j + 2 ≤ length room.old) }
    ensures { room.new ≡ swapped room.old i j }
{
    // by hand: std's `swap` asks first which of the two places is the lower
    let a = room[2 * i];
    let b = room[2 * i + 1];
    room[2 * i] = room[2 * j];
    room[2 * i + 1] = room[2 * j + 1];
    room[2 * j] = a;
    room[2 * j + 1] = b;
}

// Of the children of a heap's node, the one whose interval begins higher.
fn higher_child(room: &[f64], child: usize, end: usize) -> usize
    requires { (child < end) × (2 * end ≤ length room.now) }
    ensures { (child ≤ result) × (result < end) }
{
    if child + 1 < end {
        let second = room[2 * child] < room[2 * (child + 1)];
        return child + usize::from(second);
    }
    child
}

// Lets the interval at `start` sink in the heap of the first `end` ones.
fn sift_down(room: &mut [f64], start: usize, end: usize)
    requires { 2 * end ≤ length room.old }
    ensures { Rearranged end room.old room.new }
{
    let mut root = start;
    // the next root is a child of this one: no `for`
    while root < end / 2 {
        let c = higher_child(room, 2 * root + 1, end);
        if room[2 * root] < room[2 * c] {
            swap(room, root, c);
            root = c;
        } else {
            root = end;
        }
    }
}

// Makes a heap of the first n intervals.
fn heapify(room: &mut [f64], n: usize)
    requires { 2 * n ≤ length room.old }
    ensures { Rearranged n room.old room.new }
{
    for start in (0..n / 2).rev() {
        sift_down(room, start, n);
    }
}

// Sorts the first n intervals of a heap by their bottoms. That the order is right is no promise:
// it makes the next pass the last.
fn sort(room: &mut [f64], n: usize)
    requires { 2 * n ≤ length room.old }
    ensures { Rearranged n room.old room.new }
{
    for end in (1..n).rev() {
        swap(room, 0, end);
        sift_down(room, 0, end);
    }
}

// The number of the next pass; the intervals are sorted once.
fn next_turn(room: &mut [f64], n: usize, turn: usize) -> usize
    requires { 2 * n ≤ length room.old }
    ensures { Rearranged n room.old room.new }
{
    if turn == SORTED_AT {
        heapify(room, n);
        sort(room, n);
        return SORTED_AT + 2;
    }
    if turn < SORTED_AT + 3 {
        return turn + 1;
    }
    SORTED_AT + 2
}

// The lower of `next` and the interval's bottom, if that is at h or above it.
fn lower_next(next: f64, i: Interval, h: f64) -> f64
    ensures { result ≡ lower h next i }
{
    if h <= i.from {
        return numbers::smaller(next, i.from);
    }
    next
}

// The lowest bottom of the first n intervals at h or above it; y_high if none is below that.
fn next_bottom(room: &[f64], n: usize, h: f64, y_high: f64) -> f64
    requires { 2 * n ≤ length room.now }
    ensures { result ≡ next_bottom y_high (intervals room.now n) h }
{
    let mut next = y_high;
    for k in 0..n {
        let i = interval(room, k);
        next = lower_next(next, i, h);
    }
    next
}

// The smallest height from y_low to y_high that lies in none of the first n intervals of the room,
// which are left in some other order, and how far it is from there up to the next interval.
pub fn height(room: &mut [f64], n: usize, y_low: f64, y_high: f64) -> Look
    requires { (2 * n ≤ length room.old) × Finite y_low × Finite y_high × FiniteEnds (intervals room.old n) }
    ensures { result ≡ height_of y_low y_high (intervals room.old n) }
{
    let mut y = y_low;
    let mut turn: usize = 0;
    let mut z = raise(room, n, y, turn);
    // passes go on until one raises nothing: no `for`
    while y < z {
        if y_high < z {
            return Look::Full;
        }
        turn = next_turn(room, n, turn);
        y = z;
        z = raise(room, n, y, turn);
    }
    if y <= y_high {
        let h = numbers::plus_zero(y);
        let next = numbers::plus_zero(next_bottom(room, n, h, y_high));
        return Look::Free(h, next - h);
    }
    Look::Full
}
