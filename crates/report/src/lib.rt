// The reply of a whole plan (document 01, "The printed plan"): its verdict, its plan, its positions on
// the sheet (document 02, W1), and zeros in the work rooms.
#![tactic(auto)]

pub mod offcut;
pub mod on_sheet;
pub mod readied;

ghost use Rattle.std.specs.Prelude.{Ok, List, ◌≡◌, ℕ, ◌*◌, ◌≤◌, ◌<◌, length, get_or, Float};
ghost use Rattle.numbers.specs.Numbers.{pos_zero};
ghost use Rattle.job.specs.Jobs.{Job, frame_of};
ghost use Rattle.filling.specs.Shapes.{Planner, planner_of};
ghost use Rattle.filling.specs.Rooms.{Lent, zeros};
ghost use Rattle.filling.specs.Accounts.{no_plan};
ghost use Rattle.filling.specs.Fill.{planned_with};
ghost use Rattle.filling_laws.specs.fill_laws.inner.Prepared.{state_by};
ghost use Rattle.accounts.specs.tables.inner.Tabled.{Tabled};
ghost use Rattle.report.specs.offcut.inner.Reaching.{Parted};
ghost use Rattle.report.specs.inner.Replies.{result_of, reply, reply_of};

use filling::{Plan, Refusal};
use frames::Frame;
use index::{Bucket, Entry};
use place::Totals;

// What a whole plan answers: accepted or its refusal, and the plan, all zero where it is refused.
#[derive(Clone, Copy)]
pub struct NestResult {
    pub verdict: Result<(), Refusal>,
    pub plan: Plan,
}

pub fn no_plan() -> Plan
    ensures { result ≡ no_plan }
{
    Plan {
        placed: 0,
        unplaced: 0,
        improvements: 0,
        placed_of: [0; 64],
        unplaced_of: [0; 64],
        look_counts: [0; 1024],
        right: 0.0,
        unplaced_area: 0.0,
        offcut: 0.0,
    }
}

// The reply of a plan, or of a refusal: its number alone. The public operations' contracts say every
// field of a reply, zeros where it is refused.
impl From<Result<Plan, Refusal>> for NestResult {
    ghost from_gives = { λ p r. r ≡ result_of p };

    fn from(p: Result<Plan, Refusal>) -> NestResult {
        match p {
            Ok(plan) => NestResult {
                verdict: Ok(()),
                plan,
            },
            Err(k) => NestResult {
                verdict: Err(k),
                plan: no_plan(),
            },
        }
    }
}

// Zeros in the rooms of strips, entries and first buckets.
pub fn clear_rooms(
    shapes: &mut [f64],
    sheet: &mut [f64],
    placed: &mut [f64],
    sheet_entries: &mut [Entry],
    placed_entries: &mut [Entry],
    sheet_firsts: &mut [Bucket],
    placed_firsts: &mut [Bucket],
)
    ensures { (shapes.new ≡ zeros pos_zero shapes.old) × (sheet.new ≡ zeros pos_zero sheet.old)
        × (placed.new ≡ zeros pos_zero placed.old) × (sheet_entries.new ≡ zeros 0 sheet_entries.old)
        × (placed_entries.new ≡ zeros 0 placed_entries.old) × (sheet_firsts.new ≡ zeros 0 sheet_firsts.old)
        × (placed_firsts.new ≡ zeros 0 placed_firsts.old) }
{
    shapes.fill(0.0);
    sheet.fill(0.0);
    placed.fill(0.0);
    sheet_entries.fill(0);
    placed_entries.fill(0);
    sheet_firsts.fill(0);
    placed_firsts.fill(0);
}

// Zeros in the work rooms.
pub fn clear(
    shapes: &mut [f64],
    sheet: &mut [f64],
    placed: &mut [f64],
    sheet_entries: &mut [Entry],
    placed_entries: &mut [Entry],
    intervals: &mut [f64],
    sheet_firsts: &mut [Bucket],
    placed_firsts: &mut [Bucket],
)
    ensures { (shapes.new ≡ zeros pos_zero shapes.old) × (sheet.new ≡ zeros pos_zero sheet.old)
        × (placed.new ≡ zeros pos_zero placed.old) × (sheet_entries.new ≡ zeros 0 sheet_entries.old)
        × (placed_entries.new ≡ zeros 0 placed_entries.old) × (intervals.new ≡ zeros pos_zero intervals.old)
        × (sheet_firsts.new ≡ zeros 0 sheet_firsts.old) × (placed_firsts.new ≡ zeros 0 placed_firsts.old) }
{
    clear_rooms(
        shapes,
        sheet,
        placed,
        sheet_entries,
        placed_entries,
        sheet_firsts,
        placed_firsts,
    );
    intervals.fill(0.0);
}

// The plan of a filling, its positions on the sheet in their room. Only crates of ours call it: every
// kind in the order must be one of the job's, the parts must be those of its slots, and the room must
// hold a position for each copy.
pub fn report(
    t: Totals,
    rows: &[u64],
    kinds: usize,
    order: &[usize],
    orientation: &[usize],
    x: &[f64],
    y: &[f64],
    gap: &[f64],
    look_counts: &[usize],
    parts: &[usize],
    shapes: &[f64],
    sheet_right: f64,
    improvements: usize,
    positions: &mut [f64],
    f: Frame,
) -> Plan
    requires { (kinds ≤ 64) × (256 ≤ length rows.now) × (length order.now ≤ length orientation.now) × (length order.now ≤ length x.now)
        × (length order.now ≤ length y.now) × (1024 ≤ length look_counts.now) × (4096 ≤ length parts.now)
        × ((i : ℕ) → i < length order.now → get_or order.now i 0 < kinds)
        × (length order.now ≤ 4096) × (6 * length order.now ≤ length positions.old)
        × (length order.now ≤ length gap.now) }
    ensures { (j : Job) (areas : List Float) (p : Planner) (next : List ℕ) (l : Lent)
        → Tabled j rows.now areas → length j.kinds ≡ kinds → p.bounds.right ≡ sheet_right
        → Parted (planner_of j) parts.now shapes.now → positions.old ≡ zeros pos_zero l.positions
        → frame_of j.header ≡ f
        → reply (Ok result) positions.new ≡ reply_of (planned_with j l (state_by p order.now (length order.now) next
        look_counts.now t orientation.now x.now y.now gap.now) improvements) }
{
    let offcut = offcut::offcut(order, orientation, x, parts, shapes, t.right, sheet_right);
    let plan = accounts::plan_of(
        rows,
        kinds,
        order,
        order.len(),
        orientation,
        x,
        y,
        gap,
        look_counts,
        t.right,
        t.unplaced_area,
        offcut,
        improvements,
        positions,
    );
    on_sheet::positions_on_sheet(f, positions, order.len());
    plan
}
