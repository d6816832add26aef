// The next copy of the order: it is placed, and its place is written down.
ghost use Rattle.std.specs.Prelude.{◌≡◌, ℕ, ◌+◌, ◌*◌, ◌/◌, ◌≤◌, ◌<◌, ◌^◌, length, get_or, set, take};
ghost use Rattle.trapezoid.specs.Strip.{capacity};
ghost use Rattle.index.specs.Buckets.{buckets};
ghost use Rattle.index.specs.inner.Listing.{Laid, FirstBuckets};
ghost use Rattle.rooms.specs.tracks.inner.Tracks.{next_columns, look_counts_from, orientations, xs, ys, gaps, track_numbers, spot_numbers};
ghost use Rattle.choose.specs.inner.Choosing.{surroundings_in};
ghost use Rattle.store.specs.inner.Storing.{FirstsLaid};
ghost use Rattle.place.specs.inner.Placing.{Under, done, place_of, orientation_number, outcome_x, y_of, gap_of};
ghost use Rattle.place.specs.inner.Standing.{Standing, Fixed};

use crate::{Copy, Outcome, Step, Totals};
use choose::Grid;
use index::{Bucket, Entry};

// What is written down of a copy: 1 + its orientation with x, y and the clear height above, or zeros for
// one without a place.
#[derive(Clone, Copy)]
pub struct Spot {
    pub number: usize,
    pub x: f64,
    pub y: f64,
    pub gap: f64,
}

// The spot of a copy; its number where the orientation is one of at most 1,024.
pub fn spot_of(o: Outcome) -> Spot
    ensures { ((n : ℕ) → Under n o → n ≤ 1024 → result.number ≡ orientation_number o) × (result.x ≡ outcome_x o)
        × (result.y ≡ y_of o) × (result.gap ≡ gap_of o) }
{
    match o {
        Ok(Some(p)) => Spot {
            number: p.orientation.wrapping_add(1),
            x: p.x,
            y: p.y,
            gap: p.gap,
        },
        _ => Spot {
            number: 0,
            x: 0.0,
            y: 0.0,
            gap: 0.0,
        },
    }
}

// The copy at place `at` of the order. Only crates of ours call it: strips, entries and first buckets
// must be those of the copies that stand.
pub fn place_next(
    g: Grid,
    copy: Copy,
    at: usize,
    t: Totals,
    inset_bounds: &[f64],
    parts: &[usize],
    shapes: &[f64],
    sheet: &[f64],
    sheet_entries: &[Entry],
    sheet_starts: &[usize],
    placed: &mut [f64],
    entries: &mut [Entry],
    starts: &mut [usize],
    gains: &mut [usize],
    room: &mut [f64],
    tracks: &mut [usize],
    spots: &mut [f64],
    sheet_firsts: &[Bucket],
    firsts: &mut [Bucket],
) -> Step
    requires { ((o : ℕ) → o < copy.orientations → Fixed g.index (surroundings_in (length room.old / 2) g inset_bounds.now parts.now shapes.now
        sheet.now (take (6 * t.placed_strips) placed.old)) sheet_entries.now sheet_starts.now (copy.slot + o))
        × (copy.slot + copy.orientations ≤ 1024)
        × ((o : ℕ) → o < copy.orientations → get_or (look_counts_from tracks.old) (copy.slot + o) 0 + 4000000002 < 2 ^ 64)
        × Standing g.index placed.old t.placed_strips entries.old starts.old × (length gains.old ≡ buckets)
        × (6 * g.apart_strips ≤ length shapes.now) × (track_numbers ≤ length tracks.old) × (spot_numbers ≤ length spots.old) × (at < 4096)
        × FirstBuckets g.index sheet.now (capacity sheet.now) sheet_firsts.now
        × FirstBuckets g.index placed.old t.placed_strips firsts.old }
    ensures { (done result placed.new entries.new starts.new (look_counts_from tracks.new)
        (next_columns tracks.new)
        ≡ place_of g.index (surroundings_in (length room.old / 2) g inset_bounds.now parts.now shapes.now
        sheet.now (take (6 * t.placed_strips) placed.old)) copy.area copy.slot copy.orientations t
        placed.old entries.old starts.old firsts.old (look_counts_from tracks.old)
        (next_columns tracks.old))
        × (orientations tracks.new ≡ set (orientations tracks.old) at (orientation_number result.outcome))
        × (xs spots.new ≡ set (xs spots.old) at (outcome_x result.outcome))
        × (ys spots.new ≡ set (ys spots.old) at (y_of result.outcome))
        × Laid g.index placed.new result.totals.placed_strips entries.new starts.new
        × FirstsLaid g.index placed.new result.totals.placed_strips firsts.old firsts.new
        × (gaps spots.new ≡ set (gaps spots.old) at (gap_of result.outcome)) }
{
    let step = crate::place_copy(
        g,
        copy,
        t,
        inset_bounds,
        parts,
        shapes,
        sheet,
        sheet_entries,
        sheet_starts,
        placed,
        entries,
        starts,
        gains,
        room,
        &mut tracks[..2048],
        sheet_firsts,
        firsts,
    );
    let spot = spot_of(step.outcome);
    tracks[2048 + at] = spot.number;
    spots[3 * at] = spot.x;
    spots[3 * at + 1] = spot.y;
    spots[3 * at + 2] = spot.gap;
    step
}
