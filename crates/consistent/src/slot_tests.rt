// What refusal 31 (document 01) asks of an orientation: its parts, strips, bounds, remembered column
// and look count. A slot is 16 × kind + orientation; unused slots are not looked at. Only crates of
// ours call them.
ghost use Rattle.std.specs.Prelude.{◌≡◌, true, ℕ, ◌+◌, ◌*◌, ◌≤◌, ◌<◌, length, get_or, leb};
ghost use Rattle.search.proofs.columns.Sizes.{BoundedRect};
ghost use Rattle.consistent.specs.slot_tests.inner.Slots.{slots, part_test, last_for, track_test, shape_test, slot_test, kind_test, slots_test, Given};

use crate::strip_tests;
use choose::Part;
use search::columns::Columns;
use strips::Rect;

// Whether `count` from `start` on lie within `whole`; their sum may be no usize.
pub fn within(start: usize, count: usize, whole: usize) -> bool
    ensures { result ≡ leb (start + count) whole }
{
    count <= whole && start <= whole - count
}

// An orientation's strips lie within the two parts of the shapes room.
#[tactic(auto, unfolding(crate::specs::slot_tests::inner::Slots::part_test))]
fn part_fits(p: Part, apart: usize, inset: usize) -> bool
    ensures { result ≡ part_test apart inset p }
{
    within(p.apart_start, p.apart_count, apart) && within(p.inset_start, p.inset_count, inset)
}

// An orientation's strips and bounds.
#[tactic(auto, unfolding(crate::specs::slot_tests::inner::Slots::shape_test))]
fn shape_fits<'a>(p: Part, b: Rect, apart: &'a [f64], inset: &'a [f64]) -> bool
    ensures { (result ≡ shape_test p b apart.now inset.now) × (result ≡ true → BoundedRect b) }
{
    let aparts = trapezoid::strips_of(apart, inset, false, p.apart_start, p.apart_count);
    let insets = trapezoid::strips_of(apart, inset, true, p.inset_start, p.inset_count);
    strip_tests::strips_fit(aparts) && strip_tests::strips_fit(insets) && strip_tests::bounds_fit(b)
}

// The last column; 0 where there is no look.
#[tactic(auto, unfolding(crate::specs::slot_tests::inner::Slots::last_for))]
fn last_for(k: Columns) -> usize
    requires { k.count ≤ 4000000000 }
    ensures { (result ≡ last_for k) × (result ≤ 4000000001) }
{
    if k.reversed() { 0 } else { k.last() }
}

// The remembered column is one of the orientation's, or none; its look count is at most what the
// copies taken can have cost. `next` is 0 for none, or one more than the column.
#[tactic(auto, unfolding(crate::specs::slot_tests::inner::Slots::track_test))]
pub fn track_fits(k: Columns, next: usize, looks: usize, taken: usize) -> bool
    requires { (k.count ≤ 4000000000) × (taken ≤ 4096) }
    ensures { result ≡ track_test taken (last_for k) next looks }
{
    let last = last_for(k);
    next <= last + 1 && looks <= last + 1 + taken
}

// The orientation of a slot.
#[tactic(auto, unfolding(crate::specs::slot_tests::inner::Slots::slot_test))]
fn slot_fits<'a>(
    bounds: Rect,
    resolution: f64,
    taken: usize,
    slot: usize,
    inset_bounds: &[f64],
    parts: &[usize],
    apart: &'a [f64],
    inset: &'a [f64],
    next_column: &[usize],
    look_counts: &[usize],
) -> bool
    requires { Given (slots bounds resolution taken inset_bounds.now parts.now apart.now inset.now next_column.now look_counts.now)
        × (slot < 1024) }
    ensures { result ≡ slot_test (slots bounds resolution taken inset_bounds.now parts.now apart.now inset.now
        next_column.now look_counts.now) slot }
{
    let p = choose::part_at(parts, slot);
    let b = choose::bounds_at(inset_bounds, slot);
    part_fits(p, trapezoid::capacity(apart), trapezoid::capacity(inset))
        && shape_fits(p, b, apart, inset)
        && track_fits(
            Columns::new(bounds, b, resolution),
            next_column[slot],
            look_counts[slot],
            taken,
        )
}

// The orientations of a kind: the n slots from `first` on.
fn kind_fits<'a>(
    bounds: Rect,
    resolution: f64,
    taken: usize,
    first: usize,
    n: usize,
    inset_bounds: &[f64],
    parts: &[usize],
    apart: &'a [f64],
    inset: &'a [f64],
    next_column: &[usize],
    look_counts: &[usize],
) -> bool
    requires { Given (slots bounds resolution taken inset_bounds.now parts.now apart.now inset.now next_column.now look_counts.now)
        × (first + n ≤ 1024) }
    ensures { result ≡ kind_test (slots bounds resolution taken inset_bounds.now parts.now apart.now inset.now
        next_column.now look_counts.now) first n }
{
    (0..n).all(|o| {
        slot_fits(
            bounds,
            resolution,
            taken,
            first + o,
            inset_bounds,
            parts,
            apart,
            inset,
            next_column,
            look_counts,
        )
    })
}

// The orientations of every kind; rows hold how many each has, four numbers to a kind.
pub fn slots_fit<'a>(
    bounds: Rect,
    resolution: f64,
    taken: usize,
    rows: &[u64],
    kinds: usize,
    inset_bounds: &[f64],
    parts: &[usize],
    apart: &'a [f64],
    inset: &'a [f64],
    next_column: &[usize],
    look_counts: &[usize],
) -> bool
    requires { Given (slots bounds resolution taken inset_bounds.now parts.now apart.now inset.now next_column.now look_counts.now)
        × (kinds ≤ 64) × (256 ≤ length rows.now) × ((k : ℕ) → k < kinds → get_or rows.now (4 * k + 3) 0 ≤ 16) }
    ensures { result ≡ slots_test (slots bounds resolution taken inset_bounds.now parts.now apart.now inset.now
        next_column.now look_counts.now) rows.now kinds }
{
    (0..kinds).all(|k| {
        kind_fits(
            bounds,
            resolution,
            taken,
            16 * k,
            rows[4 * k + 3] as usize,
            inset_bounds,
            parts,
            apart,
            inset,
            next_column,
            look_counts,
        )
    })
}
