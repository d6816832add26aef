// What refusal 31 (document 01) asks of the numbers that a copy wrote: its strips, right and unplaced
// area, its kind's tracks, its position and gap. Only crates of ours call them.
ghost use Rattle.std.specs.Prelude.{◌≡◌, ℕ, ◌+◌, ◌*◌, ◌≤◌, ◌<◌, length};
ghost use Rattle.rooms.specs.tracks.inner.Tracks.{next_columns, look_counts_from, slot_numbers};
ghost use Rattle.search.proofs.columns.Sizes.{BoundedRect, Resolving};
ghost use Rattle.choose.specs.inner.Choosing.{bounds_at};
ghost use Rattle.take_copy.specs.copy_tests.inner.CopyTest.{slot_track_test, tracks_test, choice_test, outcome_test, copy_test};

use choose::{Choice, Grid};
use consistent::{slot_tests, strip_tests};
use place::{Copy, Outcome, Step};
use search::columns::Columns;
use strips::Rect;

// Remembered column and look count of a slot.
fn slot_fits(
    bounds: Rect,
    resolution: f64,
    taken: usize,
    slot: usize,
    inset_bounds: &[f64],
    tracks: &[usize],
) -> bool
    requires { BoundedRect bounds × Resolving resolution × (taken ≤ 4096) × (slot < 1024) × (4096 ≤ length inset_bounds.now)
        × (slot_numbers ≤ length tracks.now) × BoundedRect (bounds_at inset_bounds.now slot) }
    ensures { result ≡ slot_track_test bounds resolution taken inset_bounds.now (next_columns tracks.now)
        (look_counts_from tracks.now) slot }
{
    let b = choose::bounds_at(inset_bounds, slot);
    let k = Columns::new(bounds, b, resolution);
    slot_tests::track_fits(k, tracks[2 * slot], tracks[2 * slot + 1], taken)
}

// The same of the n slots from `slot` on.
fn tracks_fit(
    bounds: Rect,
    resolution: f64,
    taken: usize,
    slot: usize,
    n: usize,
    inset_bounds: &[f64],
    tracks: &[usize],
) -> bool
    requires { BoundedRect bounds × Resolving resolution × (taken ≤ 4096) × (slot + n ≤ 1024) × (4096 ≤ length inset_bounds.now)
        × (slot_numbers ≤ length tracks.now) × ((o : ℕ) → o < n → BoundedRect (bounds_at inset_bounds.now (slot + o))) }
    ensures { result ≡ tracks_test bounds resolution taken slot n inset_bounds.now (next_columns tracks.now)
        (look_counts_from tracks.now) }
{
    (0..n).all(|o| slot_fits(bounds, resolution, taken, slot + o, inset_bounds, tracks))
}

// Position and gap.
#[tactic(auto, unfolding(crate::specs::copy_tests::inner::CopyTest::choice_test))]
fn choice_fits(p: Choice) -> bool
    ensures { result ≡ choice_test p }
{
    strip_tests::bounded(p.x) && strip_tests::bounded(p.y) && strip_tests::gap_fits(p.gap)
}

// A copy without a place has neither.
#[tactic(auto, unfolding(crate::specs::copy_tests::inner::CopyTest::outcome_test))]
fn outcome_fits(o: Outcome) -> bool
    ensures { result ≡ outcome_test o }
{
    match o {
        Ok(Some(p)) => choice_fits(p),
        Ok(None) => true,
        Err(_) => true,
    }
}

// What a copy wrote: `taken` and the step's totals are those after it, before it `strips` strips were
// placed.
pub fn copy_fits(
    g: Grid,
    copy: Copy,
    taken: usize,
    strips: usize,
    step: Step,
    inset_bounds: &[f64],
    placed: &[f64],
    tracks: &[usize],
) -> bool
    requires { (strips ≤ step.totals.placed_strips) × (6 * step.totals.placed_strips ≤ length placed.now) × BoundedRect g.bounds
        × Resolving g.resolution × (taken ≤ 4096) × (copy.slot + copy.orientations ≤ 1024) × (4096 ≤ length inset_bounds.now)
        × (slot_numbers ≤ length tracks.now) × ((o : ℕ) → o < copy.orientations → BoundedRect (bounds_at inset_bounds.now (copy.slot + o))) }
    ensures { result ≡ copy_test g copy taken strips step inset_bounds.now placed.now tracks.now }
{
    let t = step.totals;
    let from = 6 * strips;
    let to = 6 * t.placed_strips;
    if !strip_tests::strips_fit(&placed[from..to]) {
        return false;
    }
    if !strip_tests::layout_fits(t.right, t.unplaced_area) {
        return false;
    }
    if !tracks_fit(
        g.bounds,
        g.resolution,
        taken,
        copy.slot,
        copy.orientations,
        inset_bounds,
        tracks,
    ) {
        return false;
    }
    let outcome = step.outcome;
    outcome_fits(outcome)
}
