// The swap search of a job's tables, and the plan of what it keeps (document 01, "Order and swaps").
// It serves the whole plan and, with no rounds, a filling in a given order. Only crates of ours call
// its functions: tables and rooms must be those of a job.
ghost use Rattle.std.specs.Prelude.{Ok, IfOk, true, List, ◌≡◌, ℕ, ◌*◌, ◌≤◌, ◌<◌, length, get_or, Float};
ghost use Rattle.numbers.specs.Numbers.{pos_zero};
ghost use Rattle.job.specs.Jobs.{Job, frame_of};
ghost use Rattle.filling.specs.Shapes.{planner_of};
ghost use Rattle.filling.specs.Rooms.{Lent, zeros};
ghost use Rattle.filling.specs.Order.{rearranged};
ghost use Rattle.nesting.specs.Rounds.{kept};
ghost use Rattle.nesting.specs.Nest.{nested};
ghost use Rattle.accounts.specs.tables.inner.Tabled.{Tabled};
ghost use Rattle.rooms.specs.tracks.inner.Tracks.{track_numbers, spot_numbers};
ghost use Rattle.filling_laws.specs.fill_laws.inner.Prepared.{Prepared, SheetFirsts};
ghost use Rattle.report.specs.offcut.inner.Reaching.{Parted};
ghost use Rattle.report.specs.inner.Replies.{reply, reply_of};
ghost use Rattle.better.specs.inner.Keeping.{kept_in, swaps_in};
ghost use Rattle.swaps.specs.inner.Turns.{searched};
ghost use Rattle.swaps.specs.search_plan.inner.Tabled.{given_by};

use better::Best;
use filling::{Plan, Refusal, Tables};
use frames::Frame;
use index::{Bucket, Entry};
use job::Header;

// Two halves for tracks.
pub fn two_tracks() -> [usize; 12288]
    ensures { length result ≡ 12288 }
{
    [0; 12288]
}

// Two halves for spots.
pub fn two_spots() -> [f64; 24576]
    ensures { length result ≡ 24576 }
{
    [0.0; 24576]
}

// The swap search over the copies in the given order: n rounds, draws from the seed on. The order and
// one half of tracks and spots have what is kept.
pub fn search(
    tables: Tables,
    seed: u64,
    n: usize,
    order: &mut [usize],
    rows: &[u64],
    areas: &[f64],
    shapes: &[f64],
    sheet: &[f64],
    sheet_entries: &[Entry],
    sheet_starts: &[usize],
    placed: &mut [f64],
    placed_entries: &mut [Entry],
    intervals: &mut [f64],
    tracks: &mut [usize],
    spots: &mut [f64],
    sheet_firsts: &[Bucket],
    placed_firsts: &mut [Bucket],
) -> Result<Best, Refusal>
    requires { ((j : Job) × Prepared j (given_by tables rows.now areas.now shapes.now sheet.now sheet_entries.now sheet_starts.now)
        × (rearranged j order.old ≡ true))
        × (6 * tables.sheet_strips ≤ length sheet.now) × (6 * tables.apart_strips ≤ length shapes.now)
        × (2 * track_numbers ≤ length tracks.old) × (2 * spot_numbers ≤ length spots.old) × (n < 4096)
        × SheetFirsts (given_by tables rows.now areas.now shapes.now sheet.now sheet_entries.now sheet_starts.now) sheet_firsts.now }
    ensures { ((j : Job) → Prepared j (given_by tables rows.now areas.now shapes.now sheet.now
        sheet_entries.now sheet_starts.now)
        → rearranged j order.old ≡ true
        → (l : Lent) → length l.rooms.placed ≡ length placed.old → length l.rooms.placed_entries ≡ length placed_entries.old
        → length l.intervals ≡ length intervals.old → length l.rooms.placed_firsts ≡ length placed_firsts.old
        → j.header.seed ≡ seed
        → swaps_in result (planner_of j) order.new tracks.new spots.new
        ≡ searched j l order.old n)
        × ((j : Job) → rearranged j order.old ≡ true → rearranged j order.new ≡ true)
        × IfOk result (λ best. best.kept ≤ 1) }
{
    crate::rounds(
        choose::grid_of(tables),
        seed,
        n,
        order,
        rows,
        areas,
        &tables.inset_bounds,
        &tables.parts,
        shapes,
        &sheet[..6 * tables.sheet_strips],
        sheet_entries,
        sheet_starts,
        placed,
        placed_entries,
        intervals,
        tracks,
        spots,
        sheet_firsts,
        placed_firsts,
    )
}

// The plan of what a swap search keeps.
fn report_kept(
    best: Best,
    kinds: usize,
    sheet_right: f64,
    order: &[usize],
    rows: &[u64],
    parts: &[usize],
    shapes: &[f64],
    tracks: &[usize],
    spots: &[f64],
    positions: &mut [f64],
    f: Frame,
) -> Plan
    requires { (kinds ≤ 64) × (256 ≤ length rows.now) × (4096 ≤ length parts.now)
        × ((i : ℕ) → i < length order.now → get_or order.now i 0 < kinds)
        × (length order.now ≤ 4096) × (6 * length order.now ≤ length positions.old)
        × (best.kept ≤ 1) × (2 * track_numbers ≤ length tracks.now) × (2 * spot_numbers ≤ length spots.now) }
    ensures { (j : Job) (areas : List Float) (l : Lent) → Tabled j rows.now areas → length j.kinds ≡ kinds
        → (planner_of j).bounds.right ≡ sheet_right → Parted (planner_of j) parts.now shapes.now
        → positions.old ≡ zeros pos_zero l.positions → frame_of j.header ≡ f
        → reply (Ok result) positions.new ≡ reply_of (nested j l
        (kept (kept_in best (planner_of j) order.now tracks.now spots.now))) }
{
    let track = 6144 * best.kept;
    let spot = 12288 * best.kept;
    let tracks = &tracks[track..track + 6144];
    let spots = &spots[spot..spot + 12288];
    let mut look_counts = [0; 1024];
    let mut orientation = [0; 4096];
    let mut x = [0.0; 4096];
    let mut y = [0.0; 4096];
    let mut gap = [0.0; 4096];
    rooms::tracks::read(tracks, 2, 1, &mut look_counts);
    rooms::tracks::read(tracks, 1, 2048, &mut orientation);
    rooms::tracks::read(spots, 3, 0, &mut x);
    rooms::tracks::read(spots, 3, 1, &mut y);
    rooms::tracks::read(spots, 3, 2, &mut gap);
    report::report(
        best.totals,
        rows,
        kinds,
        order,
        &orientation,
        &x,
        &y,
        &gap,
        &look_counts,
        parts,
        shapes,
        sheet_right,
        best.improvements,
        positions,
        f,
    )
}

// The swap search of the tables of the job with the header h over the copies in the given order, and
// its plan.
pub fn search_plan(
    tables: Tables,
    h: Header,
    n: usize,
    order: &mut [usize],
    rows: &[u64],
    areas: &[f64],
    shapes: &[f64],
    sheet: &[f64],
    sheet_entries: &[Entry],
    sheet_starts: &[usize],
    placed: &mut [f64],
    placed_entries: &mut [Entry],
    intervals: &mut [f64],
    positions: &mut [f64],
    sheet_firsts: &[Bucket],
    placed_firsts: &mut [Bucket],
) -> Result<Plan, Refusal>
    requires { ((j : Job) × Prepared j (given_by tables rows.now areas.now shapes.now sheet.now sheet_entries.now sheet_starts.now)
        × (rearranged j order.old ≡ true) × (length j.kinds ≡ h.kinds))
        × (6 * tables.sheet_strips ≤ length sheet.now) × (6 * tables.apart_strips ≤ length shapes.now)
        × (6 * length order.old ≤ length positions.old) × (n < 4096)
        × SheetFirsts (given_by tables rows.now areas.now shapes.now sheet.now sheet_entries.now sheet_starts.now) sheet_firsts.now }
    ensures { (j : Job) (l : Lent) → Prepared j (given_by tables rows.now areas.now shapes.now sheet.now
        sheet_entries.now sheet_starts.now)
        → rearranged j order.old ≡ true → length j.kinds ≡ h.kinds → j.header ≡ h
        → length l.rooms.placed ≡ length placed.old → length l.rooms.placed_entries ≡ length placed_entries.old
        → length l.intervals ≡ length intervals.old → length l.rooms.placed_firsts ≡ length placed_firsts.old
        → positions.old ≡ zeros pos_zero l.positions
        → reply result positions.new ≡ reply_of (nested j l (searched j l order.old n)) }
{
    let mut tracks = two_tracks();
    let mut spots = two_spots();
    let best = search(
        tables,
        h.seed,
        n,
        order,
        rows,
        areas,
        shapes,
        sheet,
        sheet_entries,
        sheet_starts,
        placed,
        placed_entries,
        intervals,
        &mut tracks,
        &mut spots,
        sheet_firsts,
        placed_firsts,
    )?;
    Ok(report_kept(
        best,
        h.kinds as usize,
        tables.sheet_bounds.right,
        order,
        rows,
        &tables.parts,
        shapes,
        &tracks,
        &spots,
        positions,
        job::frame_of(h),
    ))
}
