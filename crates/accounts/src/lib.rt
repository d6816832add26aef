// What a filling answers (document 01, "Order and swaps" and "The printed plan"): the positions by
// kind, then copy, and the counts.
#![tactic(auto)]

pub mod order;
pub mod tables;
pub mod verdicts;

ghost use Rattle.std.specs.Prelude.{◌≡◌, ℕ, ◌+◌, ◌*◌, ◌<◌, ◌≤◌, List, length, replicate, slice_index, slice_set, Float};
ghost use mathlib.Core.List.{flat_map};
ghost use Rattle.index.specs.Buckets.{up_from};
ghost use Rattle.job.specs.Jobs.{Job};
ghost use Rattle.filling.specs.declared.State.{State};
ghost use Rattle.filling.specs.Rooms.{laid};
ghost use Rattle.filling.specs.State.{by_slot, standing_of, standing_to};
ghost use Rattle.filling.specs.Accounts.{positions_of_kind, framed_positions, flat_positions, plan_of};
ghost use Rattle.accounts.specs.tables.inner.Tabled.{Tabled};
ghost use Rattle.accounts.specs.inner.Counting.{stands, sum_to, kind_to, stands_in, misses_in, by_kind, starts_by, look_in};
ghost use Rattle.accounts.specs.inner.Laying.{set_position, put_position, state_of};
ghost use Rattle.accounts.specs.inner.Told.{PlanTold, Totalled};

use filling::Plan;

// A copy by its number in a layout: 1 if it stands, 0 if it has no place.
fn stands(number: usize) -> usize
    ensures { result ≡ stands number }
{
    usize::from(number != 0)
}

// Counts the first n copies by kind, those that stand and those without a place; answers how many
// stand.
fn count(
    order: &[usize],
    orientation: &[usize],
    n: usize,
    placed_of: &mut [usize],
    unplaced_of: &mut [usize],
) -> usize
    requires { (n ≤ length order.now) × (n ≤ length orientation.now) × ((i : ℕ) → i < n → slice_index order.now i < 64) × (placed_of.old ≡ replicate 64 0)
        × (unplaced_of.old ≡ replicate 64 0) × (n ≤ 4096) }
    ensures { (result ≡ sum_to (stands_in orientation.now) n)
        × (placed_of.new ≡ by_kind (λ k. kind_to (stands_in orientation.now) order.now k n))
        × (unplaced_of.new ≡ by_kind (λ k. kind_to (misses_in orientation.now) order.now k n)) }
{
    let mut placed = 0;
    for i in 0..n {
        let k = order[i];
        let s = stands(orientation[i]);
        placed_of[k] += s;
        unplaced_of[k] += 1 - s;
        placed += s;
    }
    placed
}

// Where each kind's positions start.
// An index walks both tables: after `iter_mut` a proof knows a slice's length alone.
fn sum_up(counts: &[usize], starts: &mut [usize])
    requires { (length counts.now ≡ 64) × (length starts.old ≡ 64) × ((k : ℕ) → k ≤ 64 → sum_to (λ i. slice_index counts.now i) k ≤ 4294967296) }
    ensures { starts.new ≡ starts_by (λ i. slice_index counts.now i) }
{
    let mut sum = 0;
    for k in 0..64 {
        starts[k] = sum;
        sum += counts[k];
    }
}

// Stores position number p of a room: kind, copy, orientation, x, y, gap.
fn store_position(
    room: &mut [f64],
    p: usize,
    kind: usize,
    copy: usize,
    orientation: usize,
    x: f64,
    y: f64,
    gap: f64,
)
    requires { 6 * p + 6 ≤ length room.old }
    ensures { room.new ≡ set_position room.old p
        (record { kind = kind; copy = copy; orientation = orientation; x = x; y = y; gap = gap }) }
{
    let at = 6 * p;
    room[at] = std::num::nearest_u64_to_f64(kind as u64);
    room[at + 1] = std::num::nearest_u64_to_f64(copy as u64);
    room[at + 2] = std::num::nearest_u64_to_f64(orientation as u64);
    room[at + 3] = x;
    room[at + 4] = y;
    room[at + 5] = gap;
}

// Stores the next position of kind k if the copy stands, and counts it.
fn put(
    room: &mut [f64],
    starts: &[usize],
    copies: &mut [usize],
    k: usize,
    number: usize,
    x: f64,
    y: f64,
    gap: f64,
)
    requires { (k < length starts.now) × (k < length copies.old)
        × (6 * (slice_index starts.now k + slice_index copies.old k) + 6 * stands number ≤ length room.old) }
    ensures { (copies.new ≡ slice_set copies.old k (slice_index copies.old k + stands number))
        × (room.new ≡ put_position number room.old (slice_index starts.now k + slice_index copies.old k) k
        (slice_index copies.old k) x y gap) }
{
    if number == 0 {
        return;
    }
    let c = copies[k];
    store_position(room, starts[k] + c, k, c, number - 1, x, y, gap);
    copies[k] = c + 1;
}

// Stores the positions of the first n copies by kind, then copy.
fn lay(
    order: &[usize],
    orientation: &[usize],
    x: &[f64],
    y: &[f64],
    gap: &[f64],
    n: usize,
    starts: &[usize],
    copies: &mut [usize],
    room: &mut [f64],
)
    requires { (n ≤ length order.now) × (n ≤ length orientation.now) × (n ≤ length x.now) × (n ≤ length y.now)
        × ((i : ℕ) → i < n → slice_index order.now i < 64)
        × (starts.now ≡ starts_by (λ k. kind_to (stands_in orientation.now) order.now k n)) × (copies.old ≡ replicate 64 0) × (6 * n ≤ length room.old)
        × (n ≤ length gap.now) }
    ensures { (m : ℕ) → m ≤ 64 → ((i : ℕ) → i < n → slice_index order.now i < m)
        → room.new ≡ laid (flat_positions
        (flat_map (λ k. positions_of_kind k 0 (standing_to (state_of order.now orientation.now x.now y.now
        gap.now) n)) (up_from m 0))) room.old }
{
    for i in 0..n {
        put(
            room,
            starts,
            copies,
            order[i],
            orientation[i],
            x[i],
            y[i],
            gap[i],
        );
    }
}

// The look count of slot i, 0 in a slot that the job does not use.
fn look_count(rows: &[u64], kinds: usize, look_counts: &[usize], i: usize) -> usize
    requires { (kinds ≤ 64) × (256 ≤ length rows.now) × (i < length look_counts.now) }
    ensures { result ≡ look_in rows.now kinds look_counts.now i }
{
    let k = i / 16;
    if k < kinds && ((i % 16) as u64) < rows[4 * k + 3] {
        look_counts[i]
    } else {
        0
    }
}

// The look counts by slot.
fn look_table(rows: &[u64], kinds: usize, look_counts: &[usize], table: &mut [usize])
    requires { (kinds ≤ 64) × (256 ≤ length rows.now) × (1024 ≤ length look_counts.now) × (length table.old ≡ 1024) }
    ensures { table.new ≡ by_slot (look_in rows.now kinds look_counts.now) }
{
    for i in 0..1024 {
        table[i] = look_count(rows, kinds, look_counts, i);
    }
}

// What a filling answers, its positions in their room. Only crates of ours call it: every kind in the
// order must be one of the job's, and the room must hold a position for each copy.
pub fn plan_of(
    rows: &[u64],
    kinds: usize,
    order: &[usize],
    taken: usize,
    orientation: &[usize],
    x: &[f64],
    y: &[f64],
    gap: &[f64],
    look_counts: &[usize],
    right: f64,
    unplaced_area: f64,
    offcut: f64,
    improvements: usize,
    room: &mut [f64],
) -> Plan
    requires { (kinds ≤ 64) × (256 ≤ length rows.now) × (taken ≤ length order.now) × (taken ≤ length orientation.now) × (taken ≤ length x.now)
        × (taken ≤ length y.now) × (1024 ≤ length look_counts.now)
        × ((i : ℕ) → i < taken → slice_index order.now i < kinds) × (taken ≤ 4096) × (6 * taken ≤ length room.old) × (taken ≤ length gap.now) }
    ensures { (j : Job) (areas : List Float) (s : State) → Tabled j rows.now areas → length j.kinds ≡ kinds
        → PlanTold s order.now orientation.now x.now y.now gap.now look_counts.now taken
        → Totalled j s right unplaced_area offcut
        → (result ≡ plan_of j s improvements) × (room.new ≡ laid (flat_positions (framed_positions j (standing_of s))) room.old) }
{
    let mut placed_of = [0; 64];
    let mut unplaced_of = [0; 64];
    let mut starts = [0; 64];
    let mut copies = [0; 64];
    let mut table = [0; 1024];
    let placed = count(order, orientation, taken, &mut placed_of, &mut unplaced_of);
    sum_up(&placed_of, &mut starts);
    lay(
        order,
        orientation,
        x,
        y,
        gap,
        taken,
        &starts,
        &mut copies,
        room,
    );
    look_table(rows, kinds, look_counts, &mut table);
    Plan {
        placed,
        unplaced: taken - placed,
        improvements,
        placed_of,
        unplaced_of,
        look_counts: table,
        right,
        unplaced_area,
        offcut,
    }
}
