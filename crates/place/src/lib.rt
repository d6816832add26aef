// Placing the next copy (document 01, "Filling"): every orientation is searched, then the winner is
// stored, or the copy has no place. 22, 20 and 21 are met in this order, before the first write to
// strips, entries and first buckets.
#![tactic(auto)]

pub mod next;

ghost use Rattle.std.specs.Prelude.{◌≡◌, ℕ, ◌+◌, ◌*◌, ◌/◌, ◌≤◌, ◌<◌, ◌^◌, length, get_or, take};
ghost use Rattle.trapezoid.specs.Strip.{capacity};
ghost use Rattle.index.specs.Buckets.{buckets};
ghost use Rattle.index.specs.inner.Listing.{Laid, FirstBuckets};
ghost use Rattle.rooms.specs.tracks.inner.Tracks.{next_columns, look_counts_from, slot_numbers};
ghost use Rattle.choose.specs.inner.Choosing.{surroundings_in};
ghost use Rattle.store.specs.inner.Storing.{FirstsLaid};
ghost use Rattle.place.specs.inner.Placing.{copy_of, verdict_of, after_of, put, put_of, without_of, Among, settle_of, Under, done, place_of};
ghost use Rattle.place.specs.inner.Standing.{Standing, Fixed};

use choose::{Choice, Grid, Part, Winner};
use filling::Refusal;
use index::{Bucket, Entry, Overrun};

// What the tables say of a copy: its kind's first slot, number of orientations and area.
#[derive(Clone, Copy)]
pub struct Copy {
    pub slot: usize,
    pub orientations: usize,
    pub area: f64,
}

// The copy at place i of the order.
pub fn copy_at(order: &[usize], rows: &[u64], areas: &[f64], i: usize) -> Copy
    requires { (i < length order.now) × (get_or order.now i 0 < 64) × (256 ≤ length rows.now) × (64 ≤ length areas.now) }
    ensures { result ≡ copy_of order.now rows.now areas.now i }
{
    let k = order[i];
    Copy {
        slot: 16 * k,
        orientations: rows[4 * k + 3] as usize,
        area: areas[k],
    }
}

// What stands beside the rooms: the number of the placed strips, right and the unplaced area.
#[derive(Clone, Copy)]
pub struct Totals {
    pub placed_strips: usize,
    pub right: f64,
    pub unplaced_area: f64,
}

// Where the copy stands, or that it has no place; or why it is refused.
pub type Outcome = Result<Option<Choice>, Refusal>;

#[derive(Clone, Copy)]
pub struct Step {
    pub outcome: Outcome,
    pub totals: Totals,
}

// Whether the copy is taken.
pub fn verdict_of(o: Outcome) -> Result<(), Refusal>
    ensures { result ≡ verdict_of o }
{
    o?;
    Ok(())
}

// What storing the winner, a copy of k strips, leaves.
fn after(stored: Result<(), Overrun>, p: Choice, t: Totals, k: usize) -> Step
    requires { t.placed_strips + k < 2 ^ 64 }
    ensures { result ≡ after_of stored p t k }
{
    match stored {
        Ok(()) => Step {
            outcome: Ok(Some(p)),
            totals: Totals {
                placed_strips: t.placed_strips + k,
                right: numbers::larger(t.right, p.right),
                ..t
            },
        },
        Err(r) => Step {
            outcome: Err(Refusal::from(r)),
            totals: t,
        },
    }
}

// The winner is stored.
fn put_copy(
    g: Grid,
    p: Choice,
    q: Part,
    t: Totals,
    shapes: &[f64],
    placed: &mut [f64],
    entries: &mut [Entry],
    starts: &mut [usize],
    gains: &mut [usize],
    firsts: &mut [Bucket],
) -> Step
    requires { Laid g.index placed.old t.placed_strips entries.old starts.old × (length gains.old ≡ buckets)
        × (6 * g.apart_strips ≤ length shapes.now) × FirstBuckets g.index placed.old t.placed_strips firsts.old }
    ensures { (put result placed.new entries.new starts.new
        ≡ put_of g.index p q t (take (6 * g.apart_strips) shapes.now) placed.old entries.old starts.old
        firsts.old)
        × Laid g.index placed.new result.totals.placed_strips entries.new starts.new
        × FirstsLaid g.index placed.new result.totals.placed_strips firsts.old firsts.new }
{
    let end = 6 * g.apart_strips;
    let part = trapezoid::strips_of(
        &shapes[..end],
        &shapes[end..],
        false,
        q.apart_start,
        q.apart_count,
    );
    let k = trapezoid::capacity(part);
    let stored = store::store_copy(
        g.index,
        part,
        p.x,
        p.y,
        placed,
        t.placed_strips,
        entries,
        starts,
        gains,
        firsts,
    );
    after(stored, p, t, k)
}

// A copy without a place adds its kind's area.
#[tactic(auto, unfolding(crate::specs::inner::Placing::without_of))]
fn without(t: Totals, area: f64) -> Step
    ensures { result ≡ without_of t area }
{
    Step {
        outcome: Ok(None),
        totals: Totals {
            unplaced_area: t.unplaced_area + area,
            ..t
        },
    }
}

// The winner is stored, or the copy has no place, or 22.
fn settle(
    g: Grid,
    winner: Winner,
    copy: Copy,
    t: Totals,
    parts: &[usize],
    shapes: &[f64],
    placed: &mut [f64],
    entries: &mut [Entry],
    starts: &mut [usize],
    gains: &mut [usize],
    firsts: &mut [Bucket],
) -> Step
    requires { Laid g.index placed.old t.placed_strips entries.old starts.old × (length gains.old ≡ buckets)
        × ((o : ℕ) → o < copy.orientations → 4 * (copy.slot + o) + 4 ≤ length parts.now) × Among copy.orientations winner
        × (copy.slot + copy.orientations ≤ 1024) × (6 * g.apart_strips ≤ length shapes.now)
        × FirstBuckets g.index placed.old t.placed_strips firsts.old }
    ensures { (put result placed.new entries.new starts.new
        ≡ settle_of g.index winner copy.area copy.slot t parts.now (take (6 * g.apart_strips) shapes.now)
        placed.old entries.old starts.old firsts.old)
        × Laid g.index placed.new result.totals.placed_strips entries.new starts.new
        × FirstsLaid g.index placed.new result.totals.placed_strips firsts.old firsts.new }
{
    match winner {
        Ok(Some(p)) => {
            let q = choose::part_at(parts, copy.slot + p.orientation);
            put_copy(g, p, q, t, shapes, placed, entries, starts, gains, firsts)
        }
        Ok(None) => without(t, copy.area),
        Err(r) => Step {
            outcome: Err(Refusal::from(r)),
            totals: t,
        },
    }
}

// One copy of the kind whose orientations have their slots from the copy's slot on. Only crates of
// ours call it: strips, entries and first buckets must be those of the copies that stand.
pub fn place_copy(
    g: Grid,
    copy: Copy,
    t: Totals,
    inset_bounds: &[f64],
    parts: &[usize],
    shapes: &[f64],
    sheet: &[f64],
    sheet_entries: &[Entry],
    sheet_starts: &[usize],
    placed: &mut [f64],
    entries: &mut [Entry],
    starts: &mut [usize],
    gains: &mut [usize],
    room: &mut [f64],
    tracks: &mut [usize],
    sheet_firsts: &[Bucket],
    firsts: &mut [Bucket],
) -> Step
    requires { ((o : ℕ) → o < copy.orientations → Fixed g.index (surroundings_in (length room.old / 2) g inset_bounds.now parts.now shapes.now
        sheet.now (take (6 * t.placed_strips) placed.old)) sheet_entries.now sheet_starts.now (copy.slot + o))
        × (copy.slot + copy.orientations ≤ 1024) × (slot_numbers ≤ length tracks.old)
        × ((o : ℕ) → o < copy.orientations → get_or (look_counts_from tracks.old) (copy.slot + o) 0 + 4000000002 < 2 ^ 64)
        × Standing g.index placed.old t.placed_strips entries.old starts.old × (length gains.old ≡ buckets)
        × (6 * g.apart_strips ≤ length shapes.now)
        × FirstBuckets g.index sheet.now (capacity sheet.now) sheet_firsts.now
        × FirstBuckets g.index placed.old t.placed_strips firsts.old }
    ensures { (done result placed.new entries.new starts.new (look_counts_from tracks.new)
        (next_columns tracks.new)
        ≡ place_of g.index (surroundings_in (length room.old / 2) g inset_bounds.now parts.now shapes.now
        sheet.now (take (6 * t.placed_strips) placed.old)) copy.area copy.slot copy.orientations t
        placed.old entries.old starts.old firsts.old (look_counts_from tracks.old)
        (next_columns tracks.old))
        × Laid g.index placed.new result.totals.placed_strips entries.new starts.new
        × Under copy.orientations result.outcome
        × FirstsLaid g.index placed.new result.totals.placed_strips firsts.old firsts.new }
{
    let end = 6 * t.placed_strips;
    let winner = choose::choose(
        g,
        copy.slot,
        copy.orientations,
        inset_bounds,
        parts,
        shapes,
        sheet,
        sheet_entries,
        sheet_starts,
        &placed[..end],
        entries,
        starts,
        room,
        tracks,
        sheet_firsts,
        firsts,
    );
    settle(
        g, winner, copy, t, parts, shapes, placed, entries, starts, gains, firsts,
    )
}
