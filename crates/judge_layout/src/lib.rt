// The public operation `judge_layout` (document 02, W6, "Layouts from the bureau"): a job and a list of
// placed panels is accepted, or refused at its first bad line. All rooms are left zero.
#![tactic(auto)]

ghost use Rattle.std.specs.Prelude.{◌≡◌, List, ◌≤◌, length, Float};
ghost use Rattle.job.specs.Jobs.{Job, read_job};
ghost use Rattle.filling.specs.Rooms.{Rooms, rooms_of};
ghost use Rattle.report.specs.readied.inner.Zeroed.{ReadInto};
ghost use Rattle.layouts.specs.Layouts.{lines_of, not_judged, layout_job, layout_given, layout_of};
ghost use Rattle.judge_layout.specs.Judging.{judged};
ghost use Rattle.judge_layout.specs.inner.Zero.{ZeroRooms};

use filling::Refusal;
use index::{Bucket, Entry};
use job::Header;
use layouts::Judgement;

// Refused before the first line.
fn not_judged(k: Refusal) -> Judgement
    ensures { result ≡ not_judged k }
{
    Judgement {
        verdict: Err(k),
        line: 0,
    }
}

// The list of the job that was read into the tables: what is prepared (20, 21), then its lines.
fn layout_job(
    bytes: &[u8],
    at: u32,
    h: Header,
    given: &[u64],
    rows: &[u64],
    places: &[u32],
    shapes: &mut [f64],
    sheet: &mut [f64],
    placed: &mut [f64],
    sheet_entries: &mut [Entry],
    placed_entries: &[Entry],
    sheet_firsts: &mut [Bucket],
    placed_firsts: &[Bucket],
) -> Judgement
    requires { ((j : Job) × (w : Rooms) × (areas : List Float) × ReadInto j bytes.now at h rows.now areas places.now
        × ZeroRooms w shapes.old sheet.old placed.old sheet_entries.old placed_entries.now sheet_firsts.old placed_firsts.now)
        × (2048 ≤ length places.now) }
    ensures { (j : Job) (w : Rooms) (areas : List Float) → ReadInto j bytes.now at h rows.now areas places.now
        → ZeroRooms w shapes.old sheet.old placed.old sheet_entries.old placed_entries.now
        sheet_firsts.old placed_firsts.now
        → result ≡ layout_job j (lines_of given.now) w }
{
    let p = prepare::prepare(
        bytes,
        at,
        h,
        rows,
        places,
        shapes,
        sheet,
        sheet_entries,
        sheet_firsts,
    );
    let verdict = p.verdict;
    match verdict {
        Ok(()) => {
            let g = choose::grid_of(p.tables);
            let f = job::frame_of(h);
            let inset_bounds = p.tables.inset_bounds;
            let parts = p.tables.parts;
            let end = 6 * p.tables.sheet_strips;
            let room = index::standing_capacity(placed, placed_firsts);
            judge_lines::judge_lines(
                g,
                f,
                h.kinds,
                rows,
                &inset_bounds,
                &parts,
                shapes,
                &sheet[..end],
                given,
                placed,
                room,
                placed_entries.len(),
            )
        }
        Err(k) => not_judged(k),
    }
}

// The list of the job that the bytes are, in rooms that are zero.
fn judge_bytes(
    bytes: &[u8],
    given: &[u64],
    shapes: &mut [f64],
    sheet: &mut [f64],
    placed: &mut [f64],
    sheet_entries: &mut [Entry],
    placed_entries: &[Entry],
    sheet_firsts: &mut [Bucket],
    placed_firsts: &[Bucket],
) -> Judgement
    requires { (w : Rooms) × ZeroRooms w shapes.old sheet.old placed.old sheet_entries.old placed_entries.now sheet_firsts.old
        placed_firsts.now }
    ensures { (w : Rooms) → ZeroRooms w shapes.old sheet.old placed.old sheet_entries.old
        placed_entries.now sheet_firsts.old placed_firsts.now
        → result ≡ layout_given (read_job bytes.now) (lines_of given.now) w }
{
    let j = job::read(bytes);
    let rows = j.rows;
    let places = j.places;
    let answer = j.answer;
    match answer {
        Ok((h, at, _)) => layout_job(
            bytes,
            at,
            h,
            given,
            &rows,
            &places,
            shapes,
            sheet,
            placed,
            sheet_entries,
            placed_entries,
            sheet_firsts,
            placed_firsts,
        ),
        Err(k) => not_judged(Refusal::Job(k)),
    }
}

// Judges the list, four numbers to a line: kind, orientation, and the bits of x and y.
pub fn judge_layout(
    bytes: &[u8],
    given: &[u64],
    shapes: &mut [f64],
    sheet: &mut [f64],
    placed: &mut [f64],
    sheet_entries: &mut [Entry],
    placed_entries: &mut [Entry],
    sheet_firsts: &mut [Bucket],
    placed_firsts: &mut [Bucket],
) -> Judgement
    ensures { judged result (rooms_of shapes.new sheet.new placed.new sheet_entries.new
        placed_entries.new sheet_firsts.new placed_firsts.new)
        ≡ layout_of bytes.now given.now (rooms_of shapes.old sheet.old placed.old
        sheet_entries.old placed_entries.old sheet_firsts.old placed_firsts.old) }
{
    report::clear_rooms(
        shapes,
        sheet,
        placed,
        sheet_entries,
        placed_entries,
        sheet_firsts,
        placed_firsts,
    );
    let r = judge_bytes(
        bytes,
        given,
        shapes,
        sheet,
        placed,
        sheet_entries,
        placed_entries,
        sheet_firsts,
        placed_firsts,
    );
    report::clear_rooms(
        shapes,
        sheet,
        placed,
        sheet_entries,
        placed_entries,
        sheet_firsts,
        placed_firsts,
    );
    r
}
