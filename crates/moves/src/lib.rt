// Moving entries up in their room, and buckets' starts with them.
#![tactic(auto)]

ghost use Rattle.std.specs.Prelude.{ℕ, ◌+◌, ◌≤◌, ◌<◌, length, get_or};
ghost use Rattle.moves.specs.inner.Moves.{Moved, Shifted};

use index::Entry;

// Moves the entries from `from` to below `to` up by `by`, four at once, the last first; answers where
// those begin that are left, at most four.
fn move_fours(s: &mut [Entry], from: usize, to: usize, by: usize) -> usize
    requires { (from ≤ to) × (to + by ≤ length s.old) }
    ensures { (from ≤ result) × (result ≤ to) × (result ≤ from + 4) × Moved result to by s.old s.new }
{
    let mut j = to;
    // a step is four entries: no `for`
    while j - from > 4 {
        j -= 4;
        let a = s[j];
        let b = s[j + 1];
        let c = s[j + 2];
        let d = s[j + 3];
        let at = j + by;
        s[at + 3] = d;
        s[at + 2] = c;
        s[at + 1] = b;
        s[at] = a;
    }
    j
}

// Moves the entries from `from` to below `to` up by `by`, one by one, the last first.
fn move_ones(s: &mut [Entry], from: usize, to: usize, by: usize)
    requires { (from ≤ to) × (to + by ≤ length s.old) }
    ensures { Moved from to by s.old s.new }
{
    for j in (from..to).rev() {
        s[j + by] = s[j];
    }
}

// Moves the entries from `from` to below `to` up by `by`: those of many buckets. Only crates
// of ours call it.
pub fn move_block(s: &mut [Entry], from: usize, to: usize, by: usize)
    requires { (from ≤ to) × (to + by ≤ length s.old) }
    ensures { Moved from to by s.old s.new }
{
    let j = move_fours(s, from, to, by);
    move_ones(s, from, j, by);
}

// Moves the entries from `from` to below `to`, four or more, up by `by`: by fours, and the first four
// once more from what they were, which spares the single ones.
fn move_long(s: &mut [Entry], from: usize, to: usize, by: usize)
    requires { (from + 4 ≤ to) × (to + by ≤ length s.old) }
    ensures { Moved from to by s.old s.new }
{
    let a = s[from];
    let b = s[from + 1];
    let c = s[from + 2];
    let d = s[from + 3];
    move_fours(s, from, to, by);
    let at = from + by;
    s[at + 3] = d;
    s[at + 2] = c;
    s[at + 1] = b;
    s[at] = a;
}

// Moves the entries from `from` to below `to`, four or more, up by `by`, eight at once, the last
// first; answers where those begin that are left, at least four.
fn move_eights(s: &mut [Entry], from: usize, to: usize, by: usize) -> usize
    requires { (from + 4 ≤ to) × (to + by ≤ length s.old) }
    ensures { (from + 4 ≤ result) × (result ≤ to) × Moved result to by s.old s.new }
{
    let mut j = to;
    // a step is eight entries: no `for`
    while j - from > 11 {
        j -= 8;
        let a = s[j];
        let b = s[j + 1];
        let c = s[j + 2];
        let d = s[j + 3];
        let e = s[j + 4];
        let f = s[j + 5];
        let g = s[j + 6];
        let h = s[j + 7];
        let at = j + by;
        s[at + 7] = h;
        s[at + 6] = g;
        s[at + 5] = f;
        s[at + 4] = e;
        s[at + 3] = d;
        s[at + 2] = c;
        s[at + 1] = b;
        s[at] = a;
    }
    j
}

// Moves the entries from `from` to below `to` up by `by`: those of one bucket. Only crates
// of ours call it.
pub fn move_up(s: &mut [Entry], from: usize, to: usize, by: usize)
    requires { (from ≤ to) × (to + by ≤ length s.old) }
    ensures { Moved from to by s.old s.new }
{
    if to - from < 4 {
        move_ones(s, from, to, by);
        return;
    }
    move_long(s, from, to, by);
}

// The same, by eights where there are twelve or more.
fn move_far(s: &mut [Entry], from: usize, to: usize, by: usize)
    requires { (from ≤ to) × (to + by ≤ length s.old) }
    ensures { Moved from to by s.old s.new }
{
    if to - from < 12 {
        move_up(s, from, to, by);
        return;
    }
    let j = move_eights(s, from, to, by);
    move_long(s, from, j, by);
}

// The same; `long` says whether buckets are likely to be long.
pub fn move_bucket(s: &mut [Entry], from: usize, to: usize, by: usize, long: bool)
    requires { (from ≤ to) × (to + by ≤ length s.old) }
    ensures { Moved from to by s.old s.new }
{
    if long {
        move_far(s, from, to, by);
        return;
    }
    move_up(s, from, to, by);
}

// Adds `by` to the starts from number `from` on.
pub fn shift(starts: &mut [usize], from: usize, by: usize)
    requires { (from ≤ length starts.old) × ((c : ℕ) → from ≤ c → c < length starts.old → get_or starts.old c 0 + by < 18446744073709551616) }
    ensures { Shifted from by starts.old (length starts.old) starts.new }
{
    for b in from..starts.len() {
        starts[b] += by;
    }
}
