// The order of the copies (document 01, "Order and swaps"): the kinds are sorted, then each stands as
// often as its quantity. rows and areas are the tables of the crate kinds. Only crates of ours call
// its functions.
#![tactic(auto)]

ghost use Rattle.std.specs.Prelude.{◌≡◌, not, ◌&&◌, ◌||◌, ℕ, ◌+◌, ◌*◌, ◌≤◌, ◌<◌, length, get_or, replicate, ltb, eqb};
ghost use mathlib.Core.List.{List, ◌++◌, flat_map};
ghost use Rattle.std.specs.Float.{nan};
ghost use Rattle.std.specs.Float.Ieee.{lt, eq};
ghost use Rattle.slabs.specs.Slab.{up, insert, sort};
ghost use Rattle.slabs.specs.inner.Tables.{down};
ghost use Rattle.kinds.specs.Kinds.{lower, signed};
ghost use Rattle.job.specs.Jobs.{Job};
ghost use Rattle.filling.specs.Rooms.{laid};
ghost use Rattle.accounts.specs.tables.inner.Tabled.{Tabled};
ghost use Rattle.nesting.specs.CopyOrder.{higher_first, ahead, copy_order};
ghost use Rattle.copy_order.specs.inner.KindTables.{numbered_at, copies_at, copies_in};

// Kind k's priority as 32 bits. A number past them would stand for −1, as `signed` has it.
fn priority_at(rows: &[u64], k: usize) -> u64
    requires { 4 * k + 4 ≤ length rows.now }
    ensures { (result < 4294967296) × (signed result ≡ signed (get_or rows.now (4 * k + 2) 0)) }
{
    rows[4 * k + 2].min(4294967295)
}

// Whether kind a's priority is lower than kind b's.
pub fn lower_at(rows: &[u64], a: usize, b: usize) -> bool
    requires { (4 * a + 4 ≤ length rows.now) × (4 * b + 4 ≤ length rows.now) }
    ensures { result ≡ lower (signed (get_or rows.now (4 * a + 2) 0)) (signed (get_or rows.now (4 * b + 2) 0)) }
{
    kinds::lower_priority(priority_at(rows, a), priority_at(rows, b))
}

// Larger area first, smaller kind number.
fn larger_first(areas: &[f64], a: usize, b: usize) -> bool
    requires { (a < length areas.now) × (b < length areas.now) }
    ensures { result ≡ (lt (get_or areas.now b nan) (get_or areas.now a nan) || eq (get_or areas.now b nan)
        (get_or areas.now a nan) && ltb a b) }
{
    let x = areas[a];
    let y = areas[b];
    y < x || (y == x && a < b)
}

// Higher priority first.
fn higher_first(rows: &[u64], areas: &[f64], a: usize, b: usize) -> bool
    requires { (a < 64) × (b < 64) × (256 ≤ length rows.now) × (64 ≤ length areas.now) }
    ensures { result ≡ higher_first (numbered_at rows.now areas.now a) (numbered_at rows.now areas.now b) }
{
    lower_at(rows, b, a) || (!lower_at(rows, a, b) && larger_first(areas, a, b))
}

// Whether kind a's copies come before kind b's.
fn ahead(rows: &[u64], areas: &[f64], a: usize, b: usize) -> bool
    requires { (a < 64) × (b < 64) × (256 ≤ length rows.now) × (64 ≤ length areas.now) }
    ensures { result ≡ ahead (numbered_at rows.now areas.now a) (numbered_at rows.now areas.now b) }
{
    let fill_a = rows[4 * a + 1] == 1;
    let fill_b = rows[4 * b + 1] == 1;
    if fill_a != fill_b {
        return fill_b;
    }
    higher_first(rows, areas, a, b)
}

// Kind k goes to its place among the n kinds of the line, whose first stands last.
fn insert_kind(rows: &[u64], areas: &[f64], line: &mut [usize], n: usize, k: usize)
    requires { (k < 64) × (n < length line.old) × (256 ≤ length rows.now) × (64 ≤ length areas.now) × ((i : ℕ) → i < n → get_or line.old i 0 < 64) }
    ensures { (down (λ (i : ℕ). numbered_at rows.now areas.now (get_or line.new i 0)) (n + 1) ≡ insert ahead
        (numbered_at rows.now areas.now k)
        (down (λ (i : ℕ). numbered_at rows.now areas.now (get_or line.old i 0)) n))
        × ((i : ℕ) → i < n + 1 → get_or line.new i 0 < 64) }
{
    for i in (0..n).rev() {
        let b = line[i];
        if !ahead(rows, areas, b, k) {
            line[i + 1] = k;
            return;
        }
        line[i + 1] = b;
    }
    line[0] = k;
}

// The kinds, sorted; the first stands last.
fn sort_kinds(rows: &[u64], areas: &[f64], kinds: usize, line: &mut [usize])
    requires { (kinds ≤ 64) × (64 ≤ length line.old) × (256 ≤ length rows.now) × (64 ≤ length areas.now) }
    ensures { (down (λ (i : ℕ). numbered_at rows.now areas.now (get_or line.new i 0)) kinds
        ≡ sort ahead (up (numbered_at rows.now areas.now) 0 kinds))
        × ((i : ℕ) → i < kinds → get_or line.new i 0 < 64) }
{
    for k in (0..kinds).rev() {
        insert_kind(rows, areas, line, kinds - k - 1, k);
    }
}

// The copies of the sorted kinds; how many.
fn put_kinds(rows: &[u64], kinds: usize, line: &[usize], order: &mut [usize]) -> usize
    requires { (kinds ≤ length line.now) × (256 ≤ length rows.now) × ((i : ℕ) → i < kinds → get_or line.now i 0 < 64)
        × (length (flat_map (copies_at rows.now) (down (λ (i : ℕ). get_or line.now i 0) kinds)) ≤ length order.old) }
    ensures { (result ≡ length (flat_map (copies_at rows.now) (down (λ (i : ℕ). get_or line.now i 0) kinds)))
        × (order.new ≡ laid (flat_map (copies_at rows.now) (down (λ (i : ℕ). get_or line.now i 0) kinds)) order.old) }
{
    let mut at = 0;
    for i in (0..kinds).rev() {
        let k = line[i];
        let n = rows[4 * k] as usize;
        order[at..at + n].fill(k);
        at += n;
    }
    at
}

// The kinds of the job's copies, in their order; how many copies.
pub fn copy_order(rows: &[u64], areas: &[f64], kinds: usize, order: &mut [usize]) -> usize
    requires { (kinds ≤ 64) × (256 ≤ length rows.now) × (64 ≤ length areas.now) × (copies_in rows.now kinds ≤ length order.old) }
    ensures { (j : Job) → Tabled j rows.now areas.now → length j.kinds ≡ kinds → (result ≡ length (copy_order j))
        × (order.new ≡ laid (copy_order j) order.old) }
{
    let mut line = [0; 64];
    sort_kinds(rows, areas, kinds, &mut line);
    put_kinds(rows, kinds, &line, order)
}
