// Copies taken one after another over a state's arrays (document 02, W5). Only crates of ours call
// these functions.
#![tactic(auto)]

ghost use Rattle.std.specs.Prelude.{Ok, ◌≡◌, true, List, ℕ, ◌+◌, ◌-◌, ◌≤◌, ◌<◌, length, Float};
ghost use Rattle.numbers.specs.Numbers.{pos_zero};
ghost use Rattle.index.specs.Buckets.{buckets};
ghost use Rattle.job.specs.Jobs.{Job};
ghost use Rattle.filling.specs.declared.Tables.{Tables};
ghost use Rattle.filling.specs.Rooms.{zeros};
ghost use Rattle.rooms.specs.tracks.inner.Tracks.{slot_numbers};
ghost use Rattle.step.specs.inner.Going.{rooms, Going};
ghost use Rattle.batch.specs.inner.Tested.{more_taken, tested_from};
ghost use Rattle.take_copy.specs.turn.inner.Turning.{state_in, taken_after, Sizes};
ghost use Rattle.take_copies.specs.inner.Run.{end_after, rest_of, Begun};

use choose::Grid;
use index::{Bucket, Entry};
use place::Totals;
use take_copy::turn::Turn;

// How many copies were taken, and what the last turn came to.
#[derive(Clone, Copy)]
pub struct Run {
    pub took: usize,
    pub last: Turn,
}

// One more where the copy was taken.
fn took_after(turn: Turn, took: usize) -> usize
    requires { took < 4096 }
    ensures { result ≡ taken_after turn.verdict took }
{
    let v = turn.verdict;
    match v {
        Ok(()) => took + 1,
        Err(_) => took,
    }
}

// Where the turns end: at once after a refusal, or where 31 does not let the next copy pass.
fn end_after(turn: Turn, took: usize, end: usize) -> usize
    ensures { result ≡ end_after turn.verdict turn.fits took end }
{
    let v = turn.verdict;
    match v {
        Ok(()) => {
            if turn.fits {
                return end;
            }
            took
        }
        Err(_) => took,
    }
}

// At most so many copies, after the `taken` that are.
pub fn take_copies(
    most: usize,
    taken: usize,
    g: Grid,
    t: Totals,
    order: &[usize],
    rows: &[u64],
    areas: &[f64],
    inset_bounds: &[f64],
    parts: &[usize],
    shapes: &[f64],
    sheet: &[f64],
    sheet_entries: &[Entry],
    sheet_starts: &[usize],
    placed: &mut [f64],
    entries: &mut [Entry],
    starts: &mut [usize],
    gains: &mut [usize],
    room: &mut [f64],
    tracks: &mut [usize],
    orientation: &mut [usize],
    x: &mut [f64],
    y: &mut [f64],
    gap: &mut [f64],
    sheet_firsts: &[Bucket],
    firsts: &mut [Bucket],
) -> Run
    requires { ((j : Job) × (b : Tables) × (whole : List Float) × Begun j b g rows.now areas.now inset_bounds.now parts.now whole sheet.now
        order.now taken most × (0 < most → Going j (state_in b order.now taken tracks.old t orientation.old x.old y.old gap.old)
        (rooms shapes.now whole placed.old sheet_entries.now entries.old sheet_firsts.now firsts.old) rows.now areas.now
        sheet_starts.now starts.old))
        × Sizes orientation.old x.old y.old gap.old × (slot_numbers ≤ length tracks.old) × (length gains.old ≡ buckets) }
    ensures { ((j : Job) (b : Tables) (whole intervals : List Float) (n : ℕ) → Begun j b g rows.now areas.now
        inset_bounds.now parts.now whole sheet.now order.now taken most
        → (0 < most → Going j (state_in b order.now taken tracks.old t orientation.old x.old y.old
        gap.old) (rooms shapes.now whole placed.old sheet_entries.now entries.old
        sheet_firsts.now firsts.old) rows.now areas.now sheet_starts.now starts.old)
        → length intervals ≡ length room.old → most ≤ n
        → more_taken result.took (rest_of j result.last.verdict (n - result.took) (state_in b order.now (taken + result.took) tracks.new
        result.last.totals orientation.new x.new y.new gap.new) (rooms shapes.now whole
        placed.new sheet_entries.now entries.new sheet_firsts.now firsts.new)
        (zeros pos_zero intervals) result.last.fits) ≡ tested_from j n (state_in b order.now taken tracks.old t
        orientation.old x.old y.old gap.old) (rooms shapes.now whole placed.old
        sheet_entries.now entries.old sheet_firsts.now firsts.old) (zeros pos_zero intervals) true)
        × (result.took ≤ most) × (result.last.verdict ≡ (Ok tt) → result.last.fits ≡ true → result.took ≡ most)
        × Sizes orientation.new x.new y.new gap.new }
{
    let mut last = Turn {
        verdict: Ok(()),
        totals: t,
        fits: true,
    };
    let mut took = 0;
    let mut end = most;
    while took < end {
        let at = taken + took;
        last = take_copy::turn::take_next(
            g,
            place::copy_at(order, rows, areas, at),
            at,
            last.totals,
            inset_bounds,
            parts,
            shapes,
            sheet,
            sheet_entries,
            sheet_starts,
            placed,
            entries,
            starts,
            gains,
            room,
            tracks,
            orientation,
            x,
            y,
            gap,
            sheet_firsts,
            firsts,
        );
        took = took_after(last, took);
        end = end_after(last, took, end);
    }
    Run {
        took: took,
        last: last,
    }
}
