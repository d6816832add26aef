// The column search (document 01, "Filling"): the column step, and the search of one orientation
// from its remembered column.
#![tactic(auto)]

pub mod columns;

ghost use Rattle.std.specs.Prelude.{◌≡◌, ℕ, ◌+◌, ◌-◌, ◌/◌, ◌≤◌, ◌<◌, ◌^◌, length, get_or, set};
ghost use Rattle.trapezoid.specs.Strip.{capacity};
ghost use Rattle.index.specs.inner.Listing.{FirstBuckets};
ghost use Rattle.look.specs.inner.Ready.{Lookable};
ghost use Rattle.rooms.specs.tracks.inner.Tracks.{next_columns, look_counts_from, slot_numbers};
ghost use Rattle.search.specs.columns.inner.Stands.{column_x, last_of};
ghost use Rattle.search.specs.inner.Searching.{answer_at, looked, search_from, Within, next_of, tracked, search_of};

use crate::columns::Columns;
use index::{Bucket, Entry, Index, Overrun};
use look::height::Look;

// The column that a search yields, with its free height and the clear height above it, or none; or
// that a look's intervals exceed the room.
pub type Found = Result<Option<(usize, f64, f64)>, Overrun>;

// One look at column c, and one more in its orientation's look count, which nothing else writes.
fn column_step(
    ix: Index,
    k: Columns,
    c: usize,
    slot: usize,
    inset: &[f64],
    apart: &[f64],
    sheet: &[f64],
    sheet_entries: &[Entry],
    sheet_starts: &[usize],
    placed: &[f64],
    placed_entries: &[Entry],
    placed_starts: &[usize],
    room: &mut [f64],
    tracks: &mut [usize],
    sheet_firsts: &[Bucket],
    placed_firsts: &[Bucket],
) -> Result<Look, Overrun>
    requires { Lookable ix (column_x k c) k.y_low k.y_high inset.now apart.now sheet.now placed.now
        sheet_entries.now sheet_starts.now placed_entries.now placed_starts.now
        × (k.count ≤ 4000000000) × (slot < 1024) × (slot_numbers ≤ length tracks.old) × (get_or (look_counts_from tracks.old) slot 0 + 1 < 2 ^ 64)
        × FirstBuckets ix sheet.now (capacity sheet.now) sheet_firsts.now
        × FirstBuckets ix placed.now (capacity placed.now) placed_firsts.now }
    ensures { (result ≡ answer_at (length room.old / 2) k inset.now apart.now sheet.now placed.now c)
        × (look_counts_from tracks.new ≡ set (look_counts_from tracks.old) slot (get_or (look_counts_from tracks.old) slot 0 + 1))
        × (next_columns tracks.new ≡ next_columns tracks.old) }
{
    let row = 2 * slot;
    let at = row + 1;
    tracks[at] += 1;
    look::look_at(
        ix,
        k.x(c),
        k.y_low,
        k.y_high,
        inset,
        apart,
        sheet,
        sheet_entries,
        sheet_starts,
        placed,
        placed_entries,
        placed_starts,
        room,
        sheet_firsts,
        placed_firsts,
    )
}

// The first column from `from` to `last` with a free height.
fn column_search(
    ix: Index,
    k: Columns,
    from: usize,
    last: usize,
    slot: usize,
    inset: &[f64],
    apart: &[f64],
    sheet: &[f64],
    sheet_entries: &[Entry],
    sheet_starts: &[usize],
    placed: &[f64],
    placed_entries: &[Entry],
    placed_starts: &[usize],
    room: &mut [f64],
    tracks: &mut [usize],
    sheet_firsts: &[Bucket],
    placed_firsts: &[Bucket],
) -> Found
    requires { ((c : ℕ) → from ≤ c → c ≤ last → Lookable ix (column_x k c) k.y_low k.y_high inset.now apart.now sheet.now placed.now
        sheet_entries.now sheet_starts.now placed_entries.now placed_starts.now)
        × (k.count ≤ 4000000000) × (last ≤ 4000000001) × (slot < 1024) × (slot_numbers ≤ length tracks.old)
        × (get_or (look_counts_from tracks.old) slot 0 + (last + 1 - from) < 2 ^ 64)
        × FirstBuckets ix sheet.now (capacity sheet.now) sheet_firsts.now
        × FirstBuckets ix placed.now (capacity placed.now) placed_firsts.now }
    ensures { (looked result (look_counts_from tracks.new)
        ≡ search_from (answer_at (length room.old / 2) k inset.now apart.now sheet.now placed.now)
        slot (last + 1 - from) from (look_counts_from tracks.old))
        × (next_columns tracks.new ≡ next_columns tracks.old) × Within last result }
{
    // document 01 names this form: a loop that yields the column by `break`
    let mut c = from;
    let found = loop {
        if last < c {
            break None;
        }
        match column_step(
            ix,
            k,
            c,
            slot,
            inset,
            apart,
            sheet,
            sheet_entries,
            sheet_starts,
            placed,
            placed_entries,
            placed_starts,
            room,
            tracks,
            sheet_firsts,
            placed_firsts,
        )? {
            Look::Free(y, gap) => {
                break Some((c, y, gap));
            }
            Look::Full => {
                c += 1;
            }
        }
    };
    Ok(found)
}

// What is remembered of a search: 0 for none, else one more than the column.
fn next_of(found: Found, last: usize) -> usize
    requires { Within last found × (last ≤ 4000000001) }
    ensures { result ≡ next_of found }
{
    match found {
        Ok(Some((c, _, _))) => c + 1,
        _ => 0,
    }
}

// The search of one orientation, from its remembered column. Only crates of ours call it: the
// entries must be those of the strips, and the bucket numbers theirs.
pub fn search(
    ix: Index,
    k: Columns,
    slot: usize,
    inset: &[f64],
    apart: &[f64],
    sheet: &[f64],
    sheet_entries: &[Entry],
    sheet_starts: &[usize],
    placed: &[f64],
    placed_entries: &[Entry],
    placed_starts: &[usize],
    room: &mut [f64],
    tracks: &mut [usize],
    sheet_firsts: &[Bucket],
    placed_firsts: &[Bucket],
) -> Found
    requires { ((c : ℕ) → c ≤ last_of k → Lookable ix (column_x k c) k.y_low k.y_high inset.now apart.now sheet.now placed.now
        sheet_entries.now sheet_starts.now placed_entries.now placed_starts.now)
        × (k.count ≤ 4000000000) × (slot < 1024) × (slot_numbers ≤ length tracks.old) × (get_or (look_counts_from tracks.old) slot 0 + 4000000002 < 2 ^ 64)
        × FirstBuckets ix sheet.now (capacity sheet.now) sheet_firsts.now
        × FirstBuckets ix placed.now (capacity placed.now) placed_firsts.now }
    ensures { tracked result (look_counts_from tracks.new) (next_columns tracks.new)
        ≡ search_of (answer_at (length room.old / 2) k inset.now apart.now sheet.now placed.now)
        k slot (look_counts_from tracks.old) (next_columns tracks.old) }
{
    let last = k.last();
    let at = 2 * slot;
    let from = k.start(last, tracks[at]);
    let found = column_search(
        ix,
        k,
        from,
        last,
        slot,
        inset,
        apart,
        sheet,
        sheet_entries,
        sheet_starts,
        placed,
        placed_entries,
        placed_starts,
        room,
        tracks,
        sheet_firsts,
        placed_firsts,
    );
    tracks[at] = next_of(found, last);
    found
}
