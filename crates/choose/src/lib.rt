// The choice among orientations (document 01, "Filling"): the smallest x + b2 wins, then the
// smallest y + b3, then the first listed.
#![tactic(auto)]

ghost use Rattle.std.specs.Prelude.{◌≡◌, Ok, None, ℕ, ◌+◌, ◌*◌, ◌/◌, ◌≤◌, ◌<◌, ◌^◌, length, get_or, take, drop};
ghost use Rattle.trapezoid.specs.Strip.{capacity};
ghost use Rattle.index.specs.inner.Listing.{FirstBuckets};
ghost use Rattle.look.specs.inner.Ready.{Lookable};
ghost use Rattle.rooms.specs.tracks.inner.Tracks.{next_columns, look_counts_from, slot_numbers};
ghost use Rattle.search.specs.columns.inner.Stands.{column_x, last_of};
ghost use Rattle.search.specs.inner.Searching.{answer_at, tracked, search_of};
ghost use Rattle.choose.specs.inner.Choosing.{bounds_at, part_at, winner_of, wins_of, better_of, inset_part, apart_part, grid_of};
ghost use Rattle.choose.specs.inner.Choosing.{surroundings_in, Ready, chosen, orientation_of, choose_from};

use filling::Tables;
use index::{Bucket, Entry, Index, Overrun};
use search::Found;
use search::columns::Columns;
use strips::Rect;

// Where the strips of a slot lie: 16 * kind + orientation is its slot.
#[derive(Clone, Copy)]
pub struct Part {
    pub apart_start: usize,
    pub apart_count: usize,
    pub inset_start: usize,
    pub inset_count: usize,
}

// A place that an orientation's search found, with the clear height above it: right is x + b2, top is
// y + b3.
#[derive(Clone, Copy)]
pub struct Choice {
    pub orientation: usize,
    pub x: f64,
    pub y: f64,
    pub gap: f64,
    pub right: f64,
    pub top: f64,
}

// What every search of a plan shares: the sheet's index and bounds, the resolution, and the apart
// strips, which begin the shapes room.
#[derive(Clone, Copy)]
pub struct Grid {
    pub index: Index,
    pub bounds: Rect,
    pub resolution: f64,
    pub apart_strips: usize,
}

// The grid of a state's tables.
pub fn grid_of(tables: Tables) -> Grid
    ensures { result ≡ grid_of tables }
{
    let b = tables.sheet_bounds;
    Grid {
        index: Index::new(b.left, b.right),
        bounds: b,
        resolution: tables.resolution,
        apart_strips: tables.apart_strips,
    }
}

// The choice that wins, or none; or that a look's intervals exceed the room.
pub type Winner = Result<Option<Choice>, Overrun>;

// The inset bounds of a slot.
#[tactic(auto, unfolding(crate::specs::inner::Choosing::bounds_at))]
pub fn bounds_at(inset_bounds: &[f64], slot: usize) -> Rect
    requires { 4 * slot + 4 ≤ length inset_bounds.now }
    ensures { result ≡ bounds_at inset_bounds.now slot }
{
    let at = 4 * slot;
    Rect {
        left: inset_bounds[at],
        bottom: inset_bounds[at + 1],
        right: inset_bounds[at + 2],
        top: inset_bounds[at + 3],
    }
}

// The part of a slot.
#[tactic(auto, unfolding(crate::specs::inner::Choosing::part_at))]
pub fn part_at(parts: &[usize], slot: usize) -> Part
    requires { 4 * slot + 4 ≤ length parts.now }
    ensures { result ≡ part_at parts.now slot }
{
    let at = 4 * slot;
    Part {
        apart_start: parts[at],
        apart_count: parts[at + 1],
        inset_start: parts[at + 2],
        inset_count: parts[at + 3],
    }
}

// What orientation o found.
fn winner_of(k: Columns, b: Rect, o: usize, found: Found) -> Winner
    requires { k.count ≤ 4000000000 }
    ensures { result ≡ winner_of k b o found }
{
    let Some((c, y, gap)) = found? else {
        return Ok(None);
    };
    let x = k.x(c);
    Ok(Some(Choice {
        orientation: o,
        x,
        y,
        gap,
        right: x + b.right,
        top: y + b.top,
    }))
}

// Whether a wins over b, where b is listed first.
#[tactic(auto, unfolding(crate::specs::inner::Choosing::wins_of))]
fn wins(a: Choice, b: Choice) -> bool
    ensures { result ≡ wins_of a b }
{
    a.right < b.right || a.right == b.right && a.top < b.top
}

// The better of two, the first where they are equal; a look without room is never made good.
fn better(best: Winner, next: Winner) -> Winner
    ensures { result ≡ better_of best next }
{
    let Some(a) = best? else {
        return next;
    };
    let Some(b) = next? else {
        return Ok(Some(a));
    };
    Ok(Some(if wins(b, a) { b } else { a }))
}

// The search of one orientation, with its strips in their room.
fn search_part(
    g: Grid,
    k: Columns,
    p: Part,
    slot: usize,
    shapes: &[f64],
    sheet: &[f64],
    sheet_entries: &[Entry],
    sheet_starts: &[usize],
    placed: &[f64],
    placed_entries: &[Entry],
    placed_starts: &[usize],
    room: &mut [f64],
    tracks: &mut [usize],
    sheet_firsts: &[Bucket],
    placed_firsts: &[Bucket],
) -> Found
    requires { ((c : ℕ) → c ≤ last_of k → Lookable g.index (column_x k c) k.y_low k.y_high
        (inset_part p (drop (6 * g.apart_strips) shapes.now))
        (apart_part p (take (6 * g.apart_strips) shapes.now)) sheet.now placed.now
        sheet_entries.now sheet_starts.now placed_entries.now placed_starts.now)
        × (k.count ≤ 4000000000) × (slot < 1024) × (slot_numbers ≤ length tracks.old) × (get_or (look_counts_from tracks.old) slot 0 + 4000000002 < 2 ^ 64)
        × (6 * g.apart_strips ≤ length shapes.now)
        × FirstBuckets g.index sheet.now (capacity sheet.now) sheet_firsts.now
        × FirstBuckets g.index placed.now (capacity placed.now) placed_firsts.now }
    ensures { tracked result (look_counts_from tracks.new) (next_columns tracks.new)
        ≡ search_of (answer_at (length room.old / 2) k (inset_part p (drop (6 * g.apart_strips) shapes.now))
        (apart_part p (take (6 * g.apart_strips) shapes.now)) sheet.now placed.now)
        k slot (look_counts_from tracks.old) (next_columns tracks.old) }
{
    let end = 6 * g.apart_strips;
    let insets = trapezoid::strips_of(
        &shapes[..end],
        &shapes[end..],
        true,
        p.inset_start,
        p.inset_count,
    );
    let aparts = trapezoid::strips_of(
        &shapes[..end],
        &shapes[end..],
        false,
        p.apart_start,
        p.apart_count,
    );
    search::search(
        g.index,
        k,
        slot,
        insets,
        aparts,
        sheet,
        sheet_entries,
        sheet_starts,
        placed,
        placed_entries,
        placed_starts,
        room,
        tracks,
        sheet_firsts,
        placed_firsts,
    )
}

// The search of orientation o, of the slot.
fn orientation(
    g: Grid,
    slot: usize,
    o: usize,
    inset_bounds: &[f64],
    parts: &[usize],
    shapes: &[f64],
    sheet: &[f64],
    sheet_entries: &[Entry],
    sheet_starts: &[usize],
    placed: &[f64],
    placed_entries: &[Entry],
    placed_starts: &[usize],
    room: &mut [f64],
    tracks: &mut [usize],
    sheet_firsts: &[Bucket],
    placed_firsts: &[Bucket],
) -> Winner
    requires { Ready g.index (surroundings_in (length room.old / 2) g inset_bounds.now parts.now shapes.now sheet.now placed.now)
        sheet_entries.now sheet_starts.now placed_entries.now placed_starts.now slot
        × (slot < 1024) × (slot_numbers ≤ length tracks.old) × (get_or (look_counts_from tracks.old) slot 0 + 4000000002 < 2 ^ 64)
        × (6 * g.apart_strips ≤ length shapes.now)
        × FirstBuckets g.index sheet.now (capacity sheet.now) sheet_firsts.now
        × FirstBuckets g.index placed.now (capacity placed.now) placed_firsts.now }
    ensures { chosen result (look_counts_from tracks.new) (next_columns tracks.new)
        ≡ orientation_of (surroundings_in (length room.old / 2) g inset_bounds.now parts.now
        shapes.now sheet.now
        placed.now) slot o (look_counts_from tracks.old) (next_columns tracks.old) }
{
    let b = bounds_at(inset_bounds, slot);
    let p = part_at(parts, slot);
    let k = Columns::new(g.bounds, b, g.resolution);
    let found = search_part(
        g,
        k,
        p,
        slot,
        shapes,
        sheet,
        sheet_entries,
        sheet_starts,
        placed,
        placed_entries,
        placed_starts,
        room,
        tracks,
        sheet_firsts,
        placed_firsts,
    );
    winner_of(k, b, o, found)
}

// The winner among the n orientations of a kind, whose slots start at `slot`. Only crates of ours
// call it: the entries must be those of the strips, and the bucket numbers theirs.
pub fn choose(
    g: Grid,
    slot: usize,
    n: usize,
    inset_bounds: &[f64],
    parts: &[usize],
    shapes: &[f64],
    sheet: &[f64],
    sheet_entries: &[Entry],
    sheet_starts: &[usize],
    placed: &[f64],
    placed_entries: &[Entry],
    placed_starts: &[usize],
    room: &mut [f64],
    tracks: &mut [usize],
    sheet_firsts: &[Bucket],
    placed_firsts: &[Bucket],
) -> Winner
    requires { ((o : ℕ) → o < n → Ready g.index (surroundings_in (length room.old / 2) g inset_bounds.now parts.now shapes.now sheet.now
        placed.now)
        sheet_entries.now sheet_starts.now placed_entries.now placed_starts.now (slot + o))
        × (slot + n ≤ 1024) × (slot_numbers ≤ length tracks.old) × ((o : ℕ) → o < n → get_or (look_counts_from tracks.old) (slot + o) 0 + 4000000002 < 2 ^ 64)
        × (6 * g.apart_strips ≤ length shapes.now)
        × FirstBuckets g.index sheet.now (capacity sheet.now) sheet_firsts.now
        × FirstBuckets g.index placed.now (capacity placed.now) placed_firsts.now }
    ensures { chosen result (look_counts_from tracks.new) (next_columns tracks.new)
        ≡ choose_from (surroundings_in (length room.old / 2) g inset_bounds.now parts.now shapes.now
        sheet.now
        placed.now) slot n 0 (chosen (Ok None) (look_counts_from tracks.old) (next_columns tracks.old)) }
{
    // No `?`: orientations after a look without room are searched, and their looks counted, all the same.
    let mut best: Winner = Ok(None);
    for o in 0..n {
        let next = orientation(
            g,
            slot + o,
            o,
            inset_bounds,
            parts,
            shapes,
            sheet,
            sheet_entries,
            sheet_starts,
            placed,
            placed_entries,
            placed_starts,
            room,
            tracks,
            sheet_firsts,
            placed_firsts,
        );
        best = better(best, next);
    }
    best
}
