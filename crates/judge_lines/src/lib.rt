// The lines of a layout from elsewhere, one after another (document 02, W6): each is judged against the
// job, the sheet and the lines before it; then its strips stand. Only crates of ours call `judge_lines`:
// tables and rooms must be those of a job.
#![tactic(auto)]

ghost use Rattle.std.specs.Prelude.{◌≡◌, List, [], ℕ, ◌+◌, ◌*◌, ◌≤◌, length, get_or, take, drop, Float};
ghost use Rattle.index.specs.Buckets.{standing_capacity};
ghost use Rattle.job.specs.Jobs.{Job, frame_of};
ghost use Rattle.filling.specs.Shapes.{planner_of};
ghost use Rattle.filling.specs.Rooms.{Rooms};
ghost use Rattle.accounts.specs.tables.inner.Tabled.{Tabled};
ghost use Rattle.search.specs.columns.inner.Stands.{columns_of};
ghost use Rattle.choose.specs.inner.Choosing.{bounds_at, part_at, inset_part, apart_part};
ghost use Rattle.layouts.specs.declared.PutLine.{PutLine};
ghost use Rattle.layouts.specs.Layouts.{line_at, lines_of, place_of, place_verdict, line_verdict, layout_from};
ghost use Rattle.judge_lines.specs.inner.Judging.{known_by, place_fits, fits_by, stored, stored_of, TablesOf, Within, Kept, LineIs};

use choose::Grid;
use filling::Refusal;
use frames::{Frame, Point};
use layouts::{Judgement, PutLine};
use search::columns::Columns;

// What the lines before leave: so many strips stand, and there is room for so many entries more.
#[derive(Clone, Copy)]
pub struct Standing {
    pub strips: usize,
    pub entries: usize,
}

// Line i of the list: kind, orientation, and the bits of x and y.
fn line_at(given: &[u64], i: usize) -> PutLine
    requires { 4 * i + 4 ≤ length given.now }
    ensures { result ≡ line_at given.now i }
{
    let at = 4 * i;
    let x = numbers::from_bits(given[at + 2]);
    let y = numbers::from_bits(given[at + 3]);
    PutLine {
        kind: given[at],
        orientation: given[at + 1],
        x: x,
        y: y,
    }
}

// 9 and 25: whether the job has the orientation of the kind, and one more copy of it.
fn known(
    rows: &[u64],
    kinds: u64,
    counts: &[usize],
    kind: usize,
    orientation: usize,
) -> Result<(), Refusal>
    requires { ((j : Job) × (areas : List Float) × Tabled j rows.now areas × (length j.kinds ≡ kinds)) × (64 ≤ length counts.now) }
    ensures { (j : Job) (areas : List Float) → Tabled j rows.now areas → length j.kinds ≡ kinds
        → result ≡ known_by j (get_or counts.now kind 0) kind orientation }
{
    if leaf::lacks(rows, kinds, kind, orientation) {
        return Err(Refusal::MissingShape);
    }
    let quantity = rows[4 * kind] as usize;
    if quantity <= counts[kind] {
        return Err(Refusal::TooManyOfKind);
    }
    Ok(())
}

// 26 and 27: whether a place is in the ranges of the slot, and clear of the sheet and of what stands.
fn place_fits(
    g: Grid,
    slot: usize,
    inset_bounds: &[f64],
    parts: &[usize],
    shapes: &[f64],
    sheet: &[f64],
    standing: &[f64],
    at: Point,
) -> Result<(), Refusal>
    requires { (4 * slot + 4 ≤ length inset_bounds.now) × (4 * slot + 4 ≤ length parts.now) × (6 * g.apart_strips ≤ length shapes.now)
        × ((columns_of g.bounds (bounds_at inset_bounds.now slot) g.resolution).count ≤ 4000000000) }
    ensures { result ≡ place_fits (columns_of g.bounds (bounds_at inset_bounds.now slot) g.resolution)
        (inset_part (part_at parts.now slot) (drop (6 * g.apart_strips) shapes.now))
        (apart_part (part_at parts.now slot) (take (6 * g.apart_strips) shapes.now))
        sheet.now standing.now at }
{
    let b = choose::bounds_at(inset_bounds, slot);
    let k = Columns::new(g.bounds, b, g.resolution);
    if !placement::range::in_range(k, at.x, at.y) {
        return Err(Refusal::OutsideRange);
    }
    let p = choose::part_at(parts, slot);
    let end = 6 * g.apart_strips;
    let insets = trapezoid::strips_of(
        &shapes[..end],
        &shapes[end..],
        true,
        p.inset_start,
        p.inset_count,
    );
    if !placement::clear(insets, sheet, at.x, at.y) {
        return Err(Refusal::InTheWay);
    }
    let aparts = trapezoid::strips_of(
        &shapes[..end],
        &shapes[end..],
        false,
        p.apart_start,
        p.apart_count,
    );
    if !placement::clear(aparts, standing, at.x, at.y) {
        return Err(Refusal::InTheWay);
    }
    Ok(())
}

// 20 and 21: the slot's apart strips, moved, stand after those of the lines before; entries are only
// counted.
fn store_line(
    g: Grid,
    slot: usize,
    parts: &[usize],
    shapes: &[f64],
    placed: &mut [f64],
    room: usize,
    s: Standing,
    at: Point,
) -> Result<Standing, Refusal>
    requires { (4 * slot + 4 ≤ length parts.now) × (6 * g.apart_strips ≤ length shapes.now) × (6 * room ≤ length placed.old)
        × (s.strips ≤ room) }
    ensures { stored result placed.new ≡ stored_of g.index
        (apart_part (part_at parts.now slot) (take (6 * g.apart_strips) shapes.now)) at room s placed.old }
{
    let p = choose::part_at(parts, slot);
    let end = 6 * g.apart_strips;
    let aparts = trapezoid::strips_of(
        &shapes[..end],
        &shapes[end..],
        false,
        p.apart_start,
        p.apart_count,
    );
    let k = trapezoid::capacity(aparts);
    if room - s.strips < k {
        return Err(Refusal::StripRoom);
    }
    let Some(left) = store::entries_rest(g.index, aparts, at.x, s.entries) else {
        return Err(Refusal::EntryRoom);
    };
    store::store_moved(aparts, at.x, at.y, placed, s.strips);
    let strips = s.strips + k;
    Ok(Standing {
        strips: strips,
        entries: left,
    })
}

// 9, 25, 26 and 27 of a place in the frame.
fn line_fits(
    g: Grid,
    kinds: u64,
    rows: &[u64],
    counts: &[usize],
    inset_bounds: &[f64],
    parts: &[usize],
    shapes: &[f64],
    sheet: &[f64],
    standing: &[f64],
    kind: usize,
    orientation: usize,
    at: Point,
) -> Result<(), Refusal>
    requires { ((j : Job) × TablesOf j g kinds rows.now inset_bounds.now parts.now shapes.now sheet.now)
        × (64 ≤ length counts.now) × (6 * g.apart_strips ≤ length shapes.now) }
    ensures { (j : Job) → TablesOf j g kinds rows.now inset_bounds.now parts.now shapes.now
        sheet.now → result ≡ fits_by j (get_or counts.now kind 0) standing.now kind orientation at }
{
    match known(rows, kinds, counts, kind, orientation) {
        Ok(()) => {
            let slot = 16 * kind + orientation;
            place_fits(g, slot, inset_bounds, parts, shapes, sheet, standing, at)
        }
        Err(r) => Err(r),
    }
}

// A line's place in the frame: what fits is counted and stands.
fn place_line(
    g: Grid,
    kinds: u64,
    rows: &[u64],
    inset_bounds: &[f64],
    parts: &[usize],
    shapes: &[f64],
    sheet: &[f64],
    counts: &mut [usize],
    placed: &mut [f64],
    room: usize,
    s: Standing,
    kind: usize,
    orientation: usize,
    at: Point,
) -> Result<Standing, Refusal>
    requires { ((j : Job) × TablesOf j g kinds rows.now inset_bounds.now parts.now shapes.now sheet.now)
        × (64 ≤ length counts.old) × (6 * g.apart_strips ≤ length shapes.now) × (6 * room ≤ length placed.old) × (s.strips ≤ room) }
    ensures { Within room result × ((j : Job) (w : Rooms) (ks : List ℕ) (st : List Float) (l : PutLine)
        → TablesOf j g kinds rows.now inset_bounds.now parts.now shapes.now sheet.now
        → standing_capacity w.placed w.placed_firsts ≡ room
        → Kept j w ks st counts.old placed.old s
        → l.kind ≡ kind → l.orientation ≡ orientation → place_of (frame_of j.header) l ≡ at
        → LineIs j w ks st l (place_verdict j (planner_of j) w ks st l) counts.new placed.new result) }
{
    let end = 6 * s.strips;
    match line_fits(
        g,
        kinds,
        rows,
        counts,
        inset_bounds,
        parts,
        shapes,
        sheet,
        &placed[..end],
        kind,
        orientation,
        at,
    ) {
        Ok(()) => {
            let slot = 16 * kind + orientation;
            counts[kind] = counts[kind] + 1;
            store_line(g, slot, parts, shapes, placed, room, s, at)
        }
        Err(r) => Err(r),
    }
}

// One line: 4, then its place.
fn judge_line(
    g: Grid,
    f: Frame,
    kinds: u64,
    rows: &[u64],
    inset_bounds: &[f64],
    parts: &[usize],
    shapes: &[f64],
    sheet: &[f64],
    counts: &mut [usize],
    placed: &mut [f64],
    room: usize,
    s: Standing,
    l: PutLine,
) -> Result<Standing, Refusal>
    requires { ((j : Job) × TablesOf j g kinds rows.now inset_bounds.now parts.now shapes.now sheet.now)
        × (64 ≤ length counts.old) × (6 * g.apart_strips ≤ length shapes.now) × (6 * room ≤ length placed.old) × (s.strips ≤ room) }
    ensures { Within room result × ((j : Job) (w : Rooms) (ks : List ℕ) (st : List Float)
        → TablesOf j g kinds rows.now inset_bounds.now parts.now shapes.now sheet.now
        → standing_capacity w.placed w.placed_firsts ≡ room → frame_of j.header ≡ f
        → Kept j w ks st counts.old placed.old s
        → LineIs j w ks st l (line_verdict j (planner_of j) w ks st l) counts.new placed.new result) }
{
    let dx = l.x;
    let dy = l.y;
    let Some(x) = dx else {
        return Err(Refusal::Job(bits::Refusal::NonFinite));
    };
    let Some(y) = dy else {
        return Err(Refusal::Job(bits::Refusal::NonFinite));
    };
    let at = f.to(x, y);
    let kind = l.kind as usize;
    let orientation = l.orientation as usize;
    place_line(
        g,
        kinds,
        rows,
        inset_bounds,
        parts,
        shapes,
        sheet,
        counts,
        placed,
        room,
        s,
        kind,
        orientation,
        at,
    )
}

// The lines of the list, in rooms for so many strips and entries.
pub fn judge_lines(
    g: Grid,
    f: Frame,
    kinds: u64,
    rows: &[u64],
    inset_bounds: &[f64],
    parts: &[usize],
    shapes: &[f64],
    sheet: &[f64],
    given: &[u64],
    placed: &mut [f64],
    room: usize,
    entries: usize,
) -> Judgement
    requires { ((j : Job) × TablesOf j g kinds rows.now inset_bounds.now parts.now shapes.now sheet.now)
        × (6 * g.apart_strips ≤ length shapes.now) × (6 * room ≤ length placed.old) }
    ensures { (j : Job) (w : Rooms)
        → TablesOf j g kinds rows.now inset_bounds.now parts.now shapes.now sheet.now
        → standing_capacity w.placed w.placed_firsts ≡ room → length w.placed_entries ≡ entries → frame_of j.header ≡ f
        → result ≡ layout_from j (planner_of j) w [] [] (lines_of given.now) }
{
    let mut counts = [0usize; 64];
    let count = given.len() / 4;
    let mut s = Standing {
        strips: 0,
        entries: entries,
    };
    let mut i: usize = 0;
    while i < count {
        let l = line_at(given, i);
        match judge_line(
            g,
            f,
            kinds,
            rows,
            inset_bounds,
            parts,
            shapes,
            sheet,
            &mut counts,
            placed,
            room,
            s,
            l,
        ) {
            Ok(t) => {
                s = t;
                i += 1;
            }
            Err(r) => {
                return Judgement {
                    verdict: Err(r),
                    line: i,
                };
            }
        }
    }
    Judgement {
        verdict: Ok(()),
        line: i,
    }
}
