// The sorted x's of a set (document 01, "Strips"). They lie in a table whose first stands last. Only
// crates of ours call `sort_xs`.
ghost use Rattle.std.specs.Prelude.{◌≡◌, true, ◌&&◌, List, ◌++◌, ℕ, ◌+◌, ◌-◌, ◌*◌, ◌≤◌, ◌<◌, length, get_or, ltb, Float};
ghost use Rattle.std.specs.Float.{nan};
ghost use Rattle.std.specs.Float.Ieee.{lt};
ghost use Rattle.slabs.specs.Slab.{insert, sort, up};
ghost use Rattle.slabs.specs.inner.Tables.{down, merge, Number};
ghost use Rattle.slabs.specs.xs.inner.Xs.{x_at, sides};

// x goes to its place among the n numbers, whose first stands last.
fn insert_x(line: &mut [f64], n: usize, x: f64)
    requires { n < length line.old }
    ensures { down (λ (i : ℕ). get_or line.new i nan) (n + 1) ≡ insert lt x (down (λ (i : ℕ). get_or line.old i nan) n) }
{
    for k in (0..n).rev() {
        let b = line[k];
        if !(b < x) {
            line[k + 1] = x;
            return;
        }
        line[k + 1] = b;
    }
    line[0] = x;
}

// Whether the last of the first i numbers comes strictly before x.
fn leads(line: &[f64], i: usize, x: f64) -> bool
    requires { i ≤ length line.now }
    ensures { result ≡ (ltb 0 i && lt (get_or line.now (i - 1) nan) x) }
{
    i > 0 && line[i - 1] < x
}

// The c numbers of `run` go to their places among the m of `line`; both have their first last. The
// loop goes down two tables at their own paces, so it is no `for`.
fn merge_run(line: &mut [f64], m: usize, run: &[f64], c: usize)
    requires { (m + c ≤ length line.old) × (c ≤ length run.now) }
    ensures { down (λ (i : ℕ). get_or line.new i nan) (m + c) ≡ merge lt (down (λ (i : ℕ). get_or run.now i nan) c)
        (down (λ (i : ℕ). get_or line.old i nan) m) }
{
    let mut i = m;
    let mut j = c;
    while j > 0 {
        let x = run[j - 1];
        if leads(line, i, x) {
            line[i + j - 1] = line[i - 1];
            i -= 1;
        } else {
            line[i + j - 1] = x;
            j -= 1;
        }
    }
}

// The bounding x's of the sheet, sorted, first last; how many.
fn frame_xs(sheet: bool, left: f64, right: f64, line: &mut [f64]) -> usize
    requires { 2 ≤ length line.old }
    ensures { (result ≤ 2) × (down (λ (i : ℕ). get_or line.new i nan) result ≡ sort lt (sides sheet left right)) }
{
    if !sheet {
        return 0;
    }
    insert_x(line, 0, right);
    insert_x(line, 1, left);
    2
}

// The x's of the points from `first` to before n go to their places among the m numbers.
fn insert_xs(points: &[f64], first: usize, n: usize, line: &mut [f64], m: usize)
    requires { (first ≤ n) × (2 * n ≤ length points.now) × (m + (n - first) ≤ length line.old) }
    ensures { (l : List Float) → down (λ (i : ℕ). get_or line.old i nan) m ≡ sort lt l → down (λ (i : ℕ). get_or line.new i nan)
        (m + (n - first)) ≡ sort lt (up (x_at points.now) first (n - first) ++ l) }
{
    let mut k = m;
    for i in (first..n).rev() {
        let x = points[2 * i];
        insert_x(line, k, x);
        k += 1;
    }
}

// Whether no x of the first n points is a NaN.
fn no_nan(points: &[f64], n: usize) -> bool
    requires { 2 * n ≤ length points.now }
    ensures { result ≡ true → (k : ℕ) → k < n → Number (x_at points.now k) }
{
    for i in 0..n {
        if points[2 * i].is_nan() {
            return false;
        }
    }
    true
}

// Where the last run of x's begins; 0 where there are few, or where a NaN has no place in an order.
fn last_run(points: &[f64], n: usize, left: f64, right: f64) -> usize
    requires { 2 * n ≤ length points.now }
    ensures { (result ≤ n) × (0 < result → (32 < n) × Number left × Number right × ((k : ℕ) → k < n → Number (x_at points.now k))) }
{
    if n > 32 && !left.is_nan() && !right.is_nan() && no_nan(points, n) {
        n - 32
    } else {
        0
    }
}

// The x's of the first n points and the sheet's bounding x's, sorted, first last; how many. Runs of
// 32 are sorted in `run` and merged in: with at most 512 points that is quick enough.
pub fn sort_xs(
    points: &[f64],
    n: usize,
    sheet: bool,
    left: f64,
    right: f64,
    line: &mut [f64],
    run: &mut [f64],
) -> usize
    requires { (2 * n ≤ length points.now) × (n + 2 ≤ length line.old) × (3 * n ≤ length run.old) }
    ensures { (n ≤ result) × (result ≤ n + 2) × (down (λ (i : ℕ). get_or line.new i nan) result ≡ sort lt (up (x_at points.now) 0 n ++ sides sheet
        left right)) }
{
    let mut m = frame_xs(sheet, left, right, line);
    let mut i = last_run(points, n, left, right);
    insert_xs(points, i, n, line, m);
    m += n - i;
    while i > 0 {
        let c = i.min(32); // runs, so no `for`
        insert_xs(points, i - c, i, run, 0);
        merge_run(line, m, run, c);
        m += c;
        i -= c;
    }
    m
}
