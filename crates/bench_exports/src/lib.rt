// The planner's inner functions under plain names (to C by bench_exports_c), for this project's
// comparisons with the Rust and its benchmarks alone. What a function requires its caller owes, and
// nothing here tests it. A shop links plan_exports.
#![tactic(auto)]

ghost use Rattle.std.specs.Prelude.{◌+◌, ◌*◌, ◌/◌, ◌≤◌, ◌<◌, length, set, true, false, ◌≡◌};
ghost use Rattle.trapezoid.specs.Strip.{capacity};
ghost use Rattle.strips.specs.Strips.{trapezoids};
ghost use Rattle.strips.specs.inner.Tables.{Loops, strips_stored};
ghost use Rattle.job.specs.Jobs.{read_job, verdict_of};
ghost use Rattle.bench_exports.specs.inner.Answers.{verdict_number, told, height_told, look_told, gap_seen};
ghost use Rattle.random.specs.SplitMix64.{next_state, mixed};
ghost use Rattle.numbers.proofs.Doubles.{Finite};
ghost use Rattle.index.specs.Buckets.{buckets, strip_numbers, index_of};
ghost use Rattle.index.specs.inner.Listing.{intervals, Laid, FirstBuckets};
ghost use Rattle.look.specs.height.inner.Raising.{FiniteEnds};
ghost use Rattle.look.specs.height.Smallest.{height_of};
ghost use Rattle.look.specs.inner.Ready.{Lookable, look_of};
ghost use Rattle.enter.specs.inner.EntryRoom.{enter_of, FirstsWritten};
ghost use Rattle.enter.specs.inner.Gaps.{rooms, entering};

use index::{Bucket, Entry, Index, Overrun};
use look::height::Look;

// The next draw, and the state moved on.
#[unsafe(no_mangle)]
pub extern "C" fn panel_next_random(state: &mut u64) -> u64
    ensures { (state.new ≡ next_state state.old) × (result ≡ mixed (next_state state.old)) }
{
    random::next_random(state)
}

// The strips of a set, stored from strip 0 on: how many, or one more than the room holds.
#[unsafe(no_mangle)]
pub extern "C" fn panel_trapezoids(
    points: &[f64],
    n: usize,
    ends: &[u16],
    sheet: bool,
    es: &mut [f64],
    rows: &mut [f64],
    line: &mut [f64],
    room: &mut [f64],
) -> usize
    requires { (0 < n) × (2 * n ≤ length points.now) × Loops 0 ends.now n × (6 * n ≤ length es.old) × (3 * n ≤ length rows.old)
        × (n + 2 ≤ length line.old) }
    ensures { (result ≡ told (strips_stored (trapezoids points.now n ends.now sheet) room.old 0).answer
        (capacity room.old)) × (room.new ≡ (strips_stored (trapezoids points.now n ends.now sheet) room.old
        0).room) }
{
    let stored = strips::trapezoids(points, n, ends, sheet, es, rows, line, room, 0);
    stored.unwrap_or(trapezoid::capacity(room) + 1)
}

// The number 1 to 8 of a refused job, or 0.
#[unsafe(no_mangle)]
pub extern "C" fn panel_judge(bytes: &[u8]) -> u64
    ensures { result ≡ verdict_number (verdict_of (read_job bytes.now)) }
{
    match job::judge(bytes) {
        Ok(_) => 0,
        Err(k) => bits::refusal_number(k),
    }
}

// A look's height and the gap above it: 1e300 and 0 where it is full, -1e300 and 0 where the room does
// not hold its intervals.
fn height_and_gap(a: Result<Look, Overrun>) -> (f64, f64)
    ensures { (result.0 ≡ look_told a) × (result.1 ≡ gap_seen a) }
{
    match a {
        Ok(Look::Free(h, gap)) => (h, gap),
        Ok(Look::Full) => (1.0e300, 0.0),
        Err(_) => (-1.0e300, 0.0),
    }
}

// A number into the first slot, where there is one.
fn put_first(room: &mut [f64], x: f64)
    ensures { room.new ≡ set room.old 0 x }
{
    if !room.is_empty() {
        room[0] = x;
    }
}

// The width of a new index's buckets.
#[unsafe(no_mangle)]
pub extern "C" fn panel_width(x0: f64, x1: f64) -> f64
    ensures { result ≡ (index_of x0 x1).width }
{
    Index::new(x0, x1).width
}

// A look: its height, 1e300 where it is full, -1e300 where the room does not hold its intervals, and
// the gap above a free height in the first slot of `gap`. The room's contents are used up.
#[unsafe(no_mangle)]
pub extern "C" fn panel_look(
    x0: f64,
    width: f64,
    x: f64,
    y_low: f64,
    y_high: f64,
    inset: &[f64],
    apart: &[f64],
    sheet: &[f64],
    sheet_entries: &[Entry],
    sheet_starts: &[usize],
    placed: &[f64],
    placed_entries: &[Entry],
    placed_starts: &[usize],
    room: &mut [f64],
    sheet_firsts: &[Bucket],
    placed_firsts: &[Bucket],
    gap: &mut [f64],
) -> f64
    requires { Lookable (record { x0 = x0; width = width }) x y_low y_high inset.now apart.now sheet.now placed.now sheet_entries.now
        sheet_starts.now placed_entries.now placed_starts.now
        × FirstBuckets (record { x0 = x0; width = width }) sheet.now (capacity sheet.now) sheet_firsts.now
        × FirstBuckets (record { x0 = x0; width = width }) placed.now (capacity placed.now) placed_firsts.now }
    ensures { (result ≡ look_told (look_of (length room.old / 2) x y_low y_high inset.now apart.now sheet.now
        placed.now))
        × (gap.new ≡ set gap.old 0 (gap_seen (look_of (length room.old / 2) x y_low y_high inset.now
        apart.now sheet.now placed.now))) }
{
    let ix = Index { x0, width };
    let answer = look::look_at(
        ix,
        x,
        y_low,
        y_high,
        inset,
        apart,
        sheet,
        sheet_entries,
        sheet_starts,
        placed,
        placed_entries,
        placed_starts,
        room,
        sheet_firsts,
        placed_firsts,
    );
    let (height, above) = height_and_gap(answer);
    put_first(gap, above);
    height
}

// Enters the strips from `from` to below `to` and writes their first buckets, if the room holds their
// entries too. `gains` is a table of work.
#[unsafe(no_mangle)]
pub extern "C" fn panel_enter(
    x0: f64,
    width: f64,
    standing: &[f64],
    from: usize,
    to: usize,
    entries: &mut [Entry],
    starts: &mut [usize],
    gains: &mut [usize],
    firsts: &mut [Bucket],
) -> bool
    requires { (from ≤ to) × (6 * to ≤ length standing.now) × (length gains.old ≡ buckets) × Laid (record { x0 = x0; width = width }) standing.now from
        entries.old starts.old × (to ≤ strip_numbers) × (to ≤ length firsts.old) }
    ensures { (entering result entries.new starts.new ≡ enter_of (record { x0 = x0; width = width }) standing.now to
        (rooms entries.old starts.old))
        × (result ≡ true → FirstsWritten (record { x0 = x0; width = width }) standing.now from to firsts.old firsts.new)
        × (result ≡ false → firsts.new ≡ firsts.old) }
{
    let ix = Index { x0, width };
    enter::enter_copy(ix, standing, from, to, entries, starts, gains, firsts)
}

// The smallest height in none of the first n intervals of the room; 1e300 where it is full. The
// intervals are left in some other order.
#[unsafe(no_mangle)]
pub extern "C" fn panel_height(room: &mut [f64], n: usize, y_low: f64, y_high: f64) -> f64
    requires { (2 * n ≤ length room.old) × Finite y_low × Finite y_high × FiniteEnds (intervals room.old n) }
    ensures { result ≡ height_told (height_of y_low y_high (intervals room.old n)) }
{
    let seen = look::height::height(room, n, y_low, y_high);
    height_and_gap(Ok(seen)).0
}
