// The swap search (document 01, "Order and swaps"): the copies are filled in their order, then each
// round swaps two of them and fills anew; the better filling is kept. A filling lies in one half of
// two tables: a round fills the half that is not kept.
#![tactic(auto)]

pub mod search_plan;

ghost use Rattle.std.specs.Prelude.{true, IfOk, ◌≡◌, ◌+◌, ◌-◌, ◌*◌, ◌≤◌, ◌<◌, ◌^◌, length};
ghost use Rattle.job.specs.Jobs.{Job};
ghost use Rattle.filling.specs.Shapes.{planner_of};
ghost use Rattle.filling.specs.Rooms.{Lent};
ghost use Rattle.filling.specs.Order.{rearranged};
ghost use Rattle.filling.specs.Fill.{fill_order};
ghost use Rattle.nesting.specs.Rounds.{one_round};
ghost use Rattle.rooms.specs.tracks.inner.Tracks.{track_numbers, spot_numbers};
ghost use Rattle.filling_laws.specs.fill_laws.inner.Prepared.{given_in, Prepared, SheetFirsts};
ghost use Rattle.fill_order.specs.inner.Filled.{filled_in};
ghost use Rattle.better.specs.inner.Keeping.{half, kept_in, swaps_in};
ghost use Rattle.swaps.specs.inner.Turns.{searched};

use better::Best;
use choose::Grid;
use filling::Refusal;
use index::{Bucket, Entry};
use place::Totals;

// The filling of the order, in half h of tracks and spots; the other half stays.
fn fill_half(
    g: Grid,
    order: &[usize],
    rows: &[u64],
    areas: &[f64],
    inset_bounds: &[f64],
    parts: &[usize],
    shapes: &[f64],
    sheet: &[f64],
    sheet_entries: &[Entry],
    sheet_starts: &[usize],
    placed: &mut [f64],
    entries: &mut [Entry],
    room: &mut [f64],
    tracks: &mut [usize],
    spots: &mut [f64],
    sheet_firsts: &[Bucket],
    firsts: &mut [Bucket],
    h: usize,
) -> Result<Totals, Refusal>
    requires { ((j : Job) × Prepared j (given_in g rows.now areas.now inset_bounds.now parts.now shapes.now sheet.now
        sheet_entries.now sheet_starts.now) × (rearranged j order.now ≡ true))
        × (6 * g.apart_strips ≤ length shapes.now) × (2 * track_numbers ≤ length tracks.old) × (2 * spot_numbers ≤ length spots.old)
        × (h ≤ 1)
        × SheetFirsts (given_in g rows.now areas.now inset_bounds.now parts.now shapes.now sheet.now
        sheet_entries.now sheet_starts.now) sheet_firsts.now }
    ensures { ((j : Job) → Prepared j (given_in g rows.now areas.now inset_bounds.now parts.now
        shapes.now sheet.now sheet_entries.now sheet_starts.now)
        → rearranged j order.now ≡ true
        → (l : Lent) → length l.rooms.placed ≡ length placed.old → length l.rooms.placed_entries ≡ length entries.old
        → length l.intervals ≡ length room.old → length l.rooms.placed_firsts ≡ length firsts.old
        → filled_in result (planner_of j) order.now (half track_numbers h tracks.new) (half spot_numbers h spots.new)
        ≡ fill_order j l order.now)
        × (half track_numbers (1 - h) tracks.new ≡ half track_numbers (1 - h) tracks.old)
        × (half spot_numbers (1 - h) spots.new ≡ half spot_numbers (1 - h) spots.old) }
{
    let track = 6144 * h;
    let spot = 12288 * h;
    fill_order::fill_order(
        g,
        order,
        rows,
        areas,
        inset_bounds,
        parts,
        shapes,
        sheet,
        sheet_entries,
        sheet_starts,
        placed,
        entries,
        room,
        &mut tracks[track..track + 6144],
        &mut spots[spot..spot + 12288],
        sheet_firsts,
        firsts,
    )
}

// One round. Both draws are spent, whether or not the copies may be swapped.
fn round(
    g: Grid,
    b: Best,
    order: &mut [usize],
    rows: &[u64],
    areas: &[f64],
    inset_bounds: &[f64],
    parts: &[usize],
    shapes: &[f64],
    sheet: &[f64],
    sheet_entries: &[Entry],
    sheet_starts: &[usize],
    placed: &mut [f64],
    entries: &mut [Entry],
    room: &mut [f64],
    tracks: &mut [usize],
    spots: &mut [f64],
    sheet_firsts: &[Bucket],
    firsts: &mut [Bucket],
) -> Result<Best, Refusal>
    requires { ((j : Job) × Prepared j (given_in g rows.now areas.now inset_bounds.now parts.now shapes.now sheet.now
        sheet_entries.now sheet_starts.now) × (rearranged j order.old ≡ true))
        × (6 * g.apart_strips ≤ length shapes.now) × (2 * track_numbers ≤ length tracks.old) × (2 * spot_numbers ≤ length spots.old)
        × (b.improvements + 1 < 2 ^ 64) × (b.kept ≤ 1) × (0 < length order.old)
        × SheetFirsts (given_in g rows.now areas.now inset_bounds.now parts.now shapes.now sheet.now
        sheet_entries.now sheet_starts.now) sheet_firsts.now }
    ensures { ((j : Job) → Prepared j (given_in g rows.now areas.now inset_bounds.now parts.now
        shapes.now sheet.now sheet_entries.now sheet_starts.now)
        → rearranged j order.old ≡ true
        → (l : Lent) → length l.rooms.placed ≡ length placed.old → length l.rooms.placed_entries ≡ length entries.old
        → length l.intervals ≡ length room.old → length l.rooms.placed_firsts ≡ length firsts.old
        → swaps_in result (planner_of j) order.new tracks.new spots.new
        ≡ one_round j l (kept_in b (planner_of j) order.old tracks.old spots.old))
        × ((j : Job) → rearranged j order.old ≡ true → rearranged j order.new ≡ true)
        × IfOk result (λ best. (best.improvements ≤ b.improvements + 1) × (best.kept ≤ 1)) }
{
    let mut random = b.random;
    let drawn = better::draw_swap(&mut random, rows, order);
    let b = Best { random, ..b };
    let Some((i, k)) = drawn else {
        return Ok(b);
    };
    let t = fill_half(
        g,
        order,
        rows,
        areas,
        inset_bounds,
        parts,
        shapes,
        sheet,
        sheet_entries,
        sheet_starts,
        placed,
        entries,
        room,
        tracks,
        spots,
        sheet_firsts,
        firsts,
        1 - b.kept,
    )?;
    Ok(better::judge(t, b, i, k, order))
}

// The swap search over the copies in the given order: n rounds where there are two or more copies,
// draws from the seed on. Only crates of ours call it: tables and rooms must be those of a job.
pub fn rounds(
    g: Grid,
    seed: u64,
    n: usize,
    order: &mut [usize],
    rows: &[u64],
    areas: &[f64],
    inset_bounds: &[f64],
    parts: &[usize],
    shapes: &[f64],
    sheet: &[f64],
    sheet_entries: &[Entry],
    sheet_starts: &[usize],
    placed: &mut [f64],
    entries: &mut [Entry],
    room: &mut [f64],
    tracks: &mut [usize],
    spots: &mut [f64],
    sheet_firsts: &[Bucket],
    firsts: &mut [Bucket],
) -> Result<Best, Refusal>
    requires { ((j : Job) × Prepared j (given_in g rows.now areas.now inset_bounds.now parts.now shapes.now sheet.now
        sheet_entries.now sheet_starts.now) × (rearranged j order.old ≡ true))
        × (6 * g.apart_strips ≤ length shapes.now) × (2 * track_numbers ≤ length tracks.old) × (2 * spot_numbers ≤ length spots.old)
        × (n < 4096)
        × SheetFirsts (given_in g rows.now areas.now inset_bounds.now parts.now shapes.now sheet.now
        sheet_entries.now sheet_starts.now) sheet_firsts.now }
    ensures { ((j : Job) → Prepared j (given_in g rows.now areas.now inset_bounds.now parts.now
        shapes.now sheet.now sheet_entries.now sheet_starts.now)
        → rearranged j order.old ≡ true
        → (l : Lent) → length l.rooms.placed ≡ length placed.old → length l.rooms.placed_entries ≡ length entries.old
        → length l.intervals ≡ length room.old → length l.rooms.placed_firsts ≡ length firsts.old
        → j.header.seed ≡ seed
        → swaps_in result (planner_of j) order.new tracks.new spots.new
        ≡ searched j l order.old n)
        × ((j : Job) → rearranged j order.old ≡ true → rearranged j order.new ≡ true)
        × IfOk result (λ best. best.kept ≤ 1) }
{
    let totals = fill_half(
        g,
        order,
        rows,
        areas,
        inset_bounds,
        parts,
        shapes,
        sheet,
        sheet_entries,
        sheet_starts,
        placed,
        entries,
        room,
        tracks,
        spots,
        sheet_firsts,
        firsts,
        0,
    )?;
    let mut best = Best {
        random: seed,
        totals,
        improvements: 0,
        kept: 0,
    };
    let turns = if order.len() < 2 { 0 } else { n };
    for _ in 0..turns {
        best = round(
            g,
            best,
            order,
            rows,
            areas,
            inset_bounds,
            parts,
            shapes,
            sheet,
            sheet_entries,
            sheet_starts,
            placed,
            entries,
            room,
            tracks,
            spots,
            sheet_firsts,
            firsts,
        )?;
    }
    Ok(best)
}
