// One copy more over a state's arrays (document 02, W5): it is placed, its place is written down, and
// what it wrote is tested. Only crates of ours call these functions.
ghost use Rattle.std.specs.Prelude.{Ok, Err, ◌≡◌, List, ℕ, ◌+◌, ◌*◌, ◌/◌, ◌≤◌, ◌<◌, ◌^◌, length, get_or, set, take, Float};
ghost use Rattle.trapezoid.specs.Strip.{capacity};
ghost use Rattle.index.specs.Buckets.{buckets};
ghost use Rattle.index.specs.inner.Listing.{Laid, FirstBuckets};
ghost use Rattle.job.specs.Jobs.{Job};
ghost use Rattle.filling.specs.declared.Tables.{Tables};
ghost use Rattle.filling.specs.declared.Refusal.{Refusal};
ghost use Rattle.filling.specs.NextCopy.{core_step};
ghost use Rattle.rooms.specs.tracks.inner.Tracks.{next_columns, look_counts_from, slot_numbers};
ghost use Rattle.choose.specs.inner.Choosing.{surroundings_in, bounds_at};
ghost use Rattle.search.proofs.columns.Sizes.{BoundedRect, Resolving};
ghost use Rattle.store.specs.inner.Storing.{FirstsLaid};
ghost use Rattle.place.specs.inner.Placing.{copy_of, verdict_of, orientation_number, outcome_x, y_of, gap_of, Under, done, place_of};
ghost use Rattle.place.specs.inner.Standing.{Standing, Fixed};
ghost use Rattle.step.specs.inner.Going.{rooms, Going};
ghost use Rattle.batch.specs.inner.Tested.{copy_fits};
ghost use Rattle.take_copy.specs.kept_tracks.inner.Kept.{PutBack};
ghost use Rattle.take_copy.specs.copy_tests.inner.CopyTest.{copy_test};
ghost use Rattle.take_copy.specs.turn.inner.Turning.{state_in, kept_of, written_at, taken_after, step_in, Tabling, Sizes};

use crate::{copy_tests, kept_tracks};
use choose::Grid;
use index::{Bucket, Entry};
use place::{Copy, Outcome, Step, Totals};

// What a copy more comes to: whether it is taken, what stands beside the rooms then, and whether 31
// lets the next one pass.
#[derive(Clone, Copy)]
pub struct Turn {
    pub verdict: Result<(), filling::Refusal>,
    pub totals: Totals,
    pub fits: bool,
}

// The tracks that are kept are put back after a refusal.
fn back_if_refused(
    v: Result<(), filling::Refusal>,
    kept: &[usize],
    slot: usize,
    tracks: &mut [usize],
)
    requires { (slot + 16 ≤ 1024) × (slot_numbers ≤ length tracks.old) × (length kept.now ≡ 32) }
    ensures { (v ≡ (Ok tt) → tracks.new ≡ tracks.old)
        × ((k : Refusal) → v ≡ Err k → PutBack slot 32 kept.now tracks.old tracks.new) }
{
    match v {
        Ok(()) => {}
        Err(_) => {
            kept_tracks::put_back(kept, slot, tracks);
        }
    }
}

// A copy is placed; one that is refused leaves the tracks as they were too.
fn place_kept(
    g: Grid,
    copy: Copy,
    t: Totals,
    inset_bounds: &[f64],
    parts: &[usize],
    shapes: &[f64],
    sheet: &[f64],
    sheet_entries: &[Entry],
    sheet_starts: &[usize],
    placed: &mut [f64],
    entries: &mut [Entry],
    starts: &mut [usize],
    gains: &mut [usize],
    room: &mut [f64],
    tracks: &mut [usize],
    sheet_firsts: &[Bucket],
    firsts: &mut [Bucket],
) -> Step
    requires { ((o : ℕ) → o < copy.orientations → Fixed g.index (surroundings_in (length room.old / 2) g inset_bounds.now parts.now shapes.now
        sheet.now (take (6 * t.placed_strips) placed.old)) sheet_entries.now sheet_starts.now (copy.slot + o))
        × (copy.slot + 16 ≤ 1024) × (copy.orientations ≤ 16) × (slot_numbers ≤ length tracks.old)
        × ((o : ℕ) → o < copy.orientations → get_or (look_counts_from tracks.old) (copy.slot + o) 0 + 4000000002 < 2 ^ 64)
        × Standing g.index placed.old t.placed_strips entries.old starts.old × (length gains.old ≡ buckets)
        × (6 * g.apart_strips ≤ length shapes.now)
        × FirstBuckets g.index sheet.now (capacity sheet.now) sheet_firsts.now
        × FirstBuckets g.index placed.old t.placed_strips firsts.old }
    ensures { ((raw : List ℕ) × (done result placed.new entries.new starts.new (look_counts_from raw) (next_columns raw)
        ≡ place_of g.index (surroundings_in (length room.old / 2) g inset_bounds.now parts.now shapes.now
        sheet.now (take (6 * t.placed_strips) placed.old)) copy.area copy.slot copy.orientations t
        placed.old entries.old starts.old firsts.old (look_counts_from tracks.old)
        (next_columns tracks.old))
        × (look_counts_from tracks.new ≡ kept_of (verdict_of result.outcome) (look_counts_from tracks.old) (look_counts_from raw))
        × (next_columns tracks.new ≡ kept_of (verdict_of result.outcome) (next_columns tracks.old) (next_columns raw)))
        × Laid g.index placed.new result.totals.placed_strips entries.new starts.new
        × Under copy.orientations result.outcome
        × FirstsLaid g.index placed.new result.totals.placed_strips firsts.old firsts.new }
{
    let mut kept = [0usize; 32];
    kept_tracks::keep(tracks, copy.slot, &mut kept);
    let step = place::place_copy(
        g,
        copy,
        t,
        inset_bounds,
        parts,
        shapes,
        sheet,
        sheet_entries,
        sheet_starts,
        placed,
        entries,
        starts,
        gains,
        room,
        tracks,
        sheet_firsts,
        firsts,
    );
    let o = step.outcome;
    back_if_refused(place::verdict_of(o), &kept, copy.slot, tracks);
    step
}

// The place of a copy of n orientations in the layout.
fn write_place(
    o: Outcome,
    n: usize,
    at: usize,
    orientation: &mut [usize],
    x: &mut [f64],
    y: &mut [f64],
    gap: &mut [f64],
)
    requires { Under n o × (n ≤ 1024) × (at < length orientation.old) × (at < length x.old) × (at < length y.old) × (at < length gap.old) }
    ensures { (orientation.new ≡ set orientation.old at (orientation_number o))
        × (x.new ≡ set x.old at (outcome_x o)) × (y.new ≡ set y.old at (y_of o))
        × (gap.new ≡ set gap.old at (gap_of o)) }
{
    let spot = place::next::spot_of(o);
    orientation[at] = spot.number;
    x[at] = spot.x;
    y[at] = spot.y;
    gap[at] = spot.gap;
}

// A copy that is taken has its place written down, and what it wrote is tested; before it `strips`
// strips were placed.
fn turned(
    g: Grid,
    copy: Copy,
    at: usize,
    strips: usize,
    step: Step,
    inset_bounds: &[f64],
    placed: &[f64],
    tracks: &[usize],
    orientation: &mut [usize],
    x: &mut [f64],
    y: &mut [f64],
    gap: &mut [f64],
) -> Turn
    requires { (strips ≤ step.totals.placed_strips) × (6 * step.totals.placed_strips ≤ length placed.now) × BoundedRect g.bounds
        × Resolving g.resolution × (at < 4096) × (copy.slot + copy.orientations ≤ 1024) × (4096 ≤ length inset_bounds.now)
        × (slot_numbers ≤ length tracks.now) × ((o : ℕ) → o < copy.orientations → BoundedRect (bounds_at inset_bounds.now (copy.slot + o)))
        × Under copy.orientations step.outcome × Sizes orientation.old x.old y.old gap.old }
    ensures { (result.verdict ≡ verdict_of step.outcome) × (result.totals ≡ step.totals)
        × (result.verdict ≡ (Ok tt) → result.fits ≡ copy_test g copy (at + 1) strips step inset_bounds.now placed.now
        tracks.now)
        × (orientation.new ≡ written_at result.verdict orientation.old at (orientation_number step.outcome))
        × (x.new ≡ written_at result.verdict x.old at (outcome_x step.outcome))
        × (y.new ≡ written_at result.verdict y.old at (y_of step.outcome))
        × (gap.new ≡ written_at result.verdict gap.old at (gap_of step.outcome)) }
{
    let o = step.outcome;
    let totals = step.totals;
    match place::verdict_of(o) {
        Ok(()) => {
            write_place(o, copy.orientations, at, orientation, x, y, gap);
            let next = at + 1;
            let fits = copy_tests::copy_fits(
                g,
                copy,
                next,
                strips,
                step,
                inset_bounds,
                placed,
                tracks,
            );
            Turn {
                verdict: Ok(()),
                totals: totals,
                fits: fits,
            }
        }
        Err(k) => Turn {
            verdict: Err(k),
            totals: totals,
            fits: true,
        },
    }
}

// The copy at place `at` of the order: state and rooms must have passed refusal 31's tests.
pub fn take_next(
    g: Grid,
    copy: Copy,
    at: usize,
    t: Totals,
    inset_bounds: &[f64],
    parts: &[usize],
    shapes: &[f64],
    sheet: &[f64],
    sheet_entries: &[Entry],
    sheet_starts: &[usize],
    placed: &mut [f64],
    entries: &mut [Entry],
    starts: &mut [usize],
    gains: &mut [usize],
    room: &mut [f64],
    tracks: &mut [usize],
    orientation: &mut [usize],
    x: &mut [f64],
    y: &mut [f64],
    gap: &mut [f64],
    sheet_firsts: &[Bucket],
    firsts: &mut [Bucket],
) -> Turn
    requires { ((j : Job) × (b : Tables) × (order rows : List ℕ) × (areas whole : List Float)
        × Tabling b g inset_bounds.now parts.now whole sheet.now
        × Going j (state_in b order at tracks.old t orientation.old x.old y.old gap.old) (rooms shapes.now whole placed.old sheet_entries.now
        entries.old sheet_firsts.now firsts.old) rows areas sheet_starts.now starts.old × (copy ≡ copy_of order rows areas at))
        × Sizes orientation.old x.old y.old gap.old × (slot_numbers ≤ length tracks.old) × (length gains.old ≡ buckets) }
    ensures { ((j : Job) (b : Tables) (order rows : List ℕ) (areas whole intervals : List Float)
        → Tabling b g inset_bounds.now parts.now whole sheet.now
        → Going j (state_in b order at tracks.old t orientation.old x.old y.old gap.old)
        (rooms shapes.now whole placed.old sheet_entries.now entries.old sheet_firsts.now
        firsts.old) rows areas sheet_starts.now starts.old → copy ≡ copy_of order rows areas at
        → length intervals ≡ length room.old
        → (step_in result.verdict (state_in b order (taken_after result.verdict at) tracks.new result.totals orientation.new x.new
        y.new gap.new) (rooms shapes.now whole placed.new sheet_entries.now entries.new
        sheet_firsts.now firsts.new) intervals ≡ core_step j (state_in b order at tracks.old t orientation.old
        x.old y.old gap.old) (rooms shapes.now whole placed.old sheet_entries.now
        entries.old sheet_firsts.now firsts.old) intervals)
        × (result.verdict ≡ (Ok tt) → result.fits ≡ copy_fits j at t.placed_strips (state_in b order (at + 1) tracks.new result.totals
        orientation.new x.new y.new gap.new) (rooms shapes.now whole placed.new
        sheet_entries.now entries.new sheet_firsts.now firsts.new)))
        × Laid g.index placed.new result.totals.placed_strips entries.new starts.new
        × FirstBuckets g.index placed.new result.totals.placed_strips firsts.new }
{
    let step = place_kept(
        g,
        copy,
        t,
        inset_bounds,
        parts,
        shapes,
        sheet,
        sheet_entries,
        sheet_starts,
        placed,
        entries,
        starts,
        gains,
        room,
        tracks,
        sheet_firsts,
        firsts,
    );
    let strips = t.placed_strips;
    turned(
        g,
        copy,
        at,
        strips,
        step,
        inset_bounds,
        placed,
        tracks,
        orientation,
        x,
        y,
        gap,
    )
}
