// The text of a reply (document 01, "The printed plan") as bytes in a lent buffer. Only crates of ours
// write it: the tables must be an accepted job's, and the buffer must be long enough; 589,824 bytes are
// for every plan.
#![tactic(auto)]

pub mod printed;

ghost use Rattle.std.specs.Prelude.{ℕ, ◌+◌, ◌*◌, ◌≤◌, ◌<◌, ◌≡◌, [], ◌∷◌, length, get_or};
ghost use Rattle.nesting.specs.Text.{position_at, put_line, left_line, fill_line, last_lines, refusal_text};
ghost use Rattle.lines.specs.inner.Writing.{Put};
ghost use Rattle.text.specs.inner.Tables.{fill_at, puts_to, lefts_to, fills_to, looks_of, looks_to, plan_by, reply_by};

use filling::{Plan, Refusal};
use lines::Text;

// The line of position i of a room.
fn put_line(out: &mut Text, room: &[f64], i: usize)
    requires { (out.old.end + 118 ≤ length out.old.out.now) × (6 * i + 6 ≤ length room.now) }
    ensures { Put out.old (put_line (position_at room.now i)) out.new }
{
    let p = 6 * i;
    let kind = numbers::floor(room[p]) as usize;
    let copy = numbers::floor(room[p + 1]) as usize;
    let orientation = numbers::floor(room[p + 2]) as usize;
    out.line(
        b"put",
        &[kind, copy, orientation],
        &[room[p + 3], room[p + 4], room[p + 5]],
    );
}

// The lines of the first n positions.
fn put_lines(out: &mut Text, room: &[f64], n: usize)
    requires { (out.old.end + 118 * n ≤ length out.old.out.now) × (6 * n ≤ length room.now) }
    ensures { Put out.old (puts_to room.now n) out.new }
{
    for i in 0..n {
        put_line(out, room, i);
    }
}

// Whether kind k is a fill kind.
fn is_fill(rows: &[u64], k: usize) -> bool
    requires { 4 * k + 2 ≤ length rows.now }
    ensures { result ≡ fill_at rows.now k }
{
    rows[4 * k + 1] == 1
}

// The missing copies of an ordinary kind, if any.
fn left_line(out: &mut Text, k: usize, fill: bool, n: usize)
    requires { out.old.end + 47 ≤ length out.old.out.now }
    ensures { Put out.old (left_line k fill n) out.new }
{
    if !fill && n > 0 {
        out.line(b"left", &[k, n], &[]);
    }
}

// The left lines of all kinds.
fn left_lines(out: &mut Text, rows: &[u64], kinds: usize, missing: &[usize])
    requires { (out.old.end + 47 * kinds ≤ length out.old.out.now) × (4 * kinds ≤ length rows.now) × (kinds ≤ length missing.now) }
    ensures { Put out.old (lefts_to rows.now missing.now kinds) out.new }
{
    for k in 0..kinds {
        left_line(out, k, is_fill(rows, k), missing[k]);
    }
}

// The placed copies of a fill kind.
fn fill_line(out: &mut Text, k: usize, fill: bool, n: usize)
    requires { out.old.end + 47 ≤ length out.old.out.now }
    ensures { Put out.old (fill_line k fill n) out.new }
{
    if fill {
        out.line(b"fill", &[k, n], &[]);
    }
}

// The fill lines of all kinds. The left lines differ in the line, which one more parameter makes no plainer.
fn fill_lines(out: &mut Text, rows: &[u64], kinds: usize, placed: &[usize])
    requires { (out.old.end + 47 * kinds ≤ length out.old.out.now) × (4 * kinds ≤ length rows.now) × (kinds ≤ length placed.now) }
    ensures { Put out.old (fills_to rows.now placed.now kinds) out.new }
{
    for k in 0..kinds {
        fill_line(out, k, is_fill(rows, k), placed[k]);
    }
}

// The looks of kind k, n orientations.
fn looks_of(out: &mut Text, k: usize, n: usize, look_counts: &[usize])
    requires { (out.old.end + 68 * n ≤ length out.old.out.now) × (16 * k + n ≤ length look_counts.now) }
    ensures { Put out.old (looks_of look_counts.now k n) out.new }
{
    for o in 0..n {
        out.line(b"look", &[k, o, look_counts[16 * k + o]], &[]);
    }
}

// The look lines of all kinds.
fn look_lines(out: &mut Text, rows: &[u64], kinds: usize, look_counts: &[usize])
    requires { (out.old.end + 1088 * kinds ≤ length out.old.out.now) × (4 * kinds ≤ length rows.now) × (16 * kinds ≤ length look_counts.now)
        × ((k : ℕ) → k < kinds → get_or rows.now (4 * k + 3) 0 ≤ 16) }
    ensures { Put out.old (looks_to rows.now look_counts.now kinds) out.new }
{
    for k in 0..kinds {
        looks_of(out, k, rows[4 * k + 3] as usize, look_counts);
    }
}

// Right, unplaced area and offcut.
fn last_lines(out: &mut Text, plan: &Plan)
    requires { out.old.end + 69 ≤ length out.old.out.now }
    ensures { Put out.old (last_lines plan.now) out.new }
{
    out.line(b"right", &[], &[plan.right]);
    out.line(b"area", &[], &[plan.unplaced_area]);
    out.line(b"offcut", &[], &[plan.offcut]);
}

// The text of a plan.
pub fn plan_text(out: &mut Text, rows: &[u64], kinds: usize, room: &[f64], plan: &Plan)
    requires { (out.old.end + 589824 ≤ length out.old.out.now) × (kinds ≤ 64) × (4 * kinds ≤ length rows.now)
        × ((k : ℕ) → k < kinds → get_or rows.now (4 * k + 3) 0 ≤ 16) × (plan.now.placed ≤ 4096) × (6 * plan.now.placed ≤ length room.now)
        × (kinds ≤ length plan.now.placed_of) × (kinds ≤ length plan.now.unplaced_of) × (16 * kinds ≤ length plan.now.look_counts) }
    ensures { Put out.old (plan_by rows.now kinds room.now plan.now) out.new }
{
    out.line(
        b"plan",
        &[plan.placed, plan.unplaced, plan.improvements],
        &[],
    );
    put_lines(out, room, plan.placed);
    left_lines(out, rows, kinds, &plan.unplaced_of);
    fill_lines(out, rows, kinds, &plan.placed_of);
    look_lines(out, rows, kinds, &plan.look_counts);
    last_lines(out, plan);
}

// The text of a refusal.
pub fn refusal_text(out: &mut Text, r: Refusal)
    requires { out.old.end + 24 ≤ length out.old.out.now }
    ensures { Put out.old (refusal_text r) out.new }
{
    let number = accounts::verdicts::refusal_number(r) as usize;
    out.line(b"no", &[number], &[]);
}

// The text of a reply: a plan, or a refusal.
pub fn reply_text(
    out: &mut Text,
    verdict: Result<(), Refusal>,
    rows: &[u64],
    kinds: usize,
    room: &[f64],
    plan: &Plan,
)
    requires { (out.old.end + 589824 ≤ length out.old.out.now) × (kinds ≤ 64) × (4 * kinds ≤ length rows.now)
        × ((k : ℕ) → k < kinds → get_or rows.now (4 * k + 3) 0 ≤ 16) × (plan.now.placed ≤ 4096) × (6 * plan.now.placed ≤ length room.now)
        × (kinds ≤ length plan.now.placed_of) × (kinds ≤ length plan.now.unplaced_of) × (16 * kinds ≤ length plan.now.look_counts) }
    ensures { Put out.old (reply_by rows.now kinds room.now plan.now verdict) out.new }
{
    match verdict {
        Ok(()) => plan_text(out, rows, kinds, room, plan),
        Err(k) => refusal_text(out, k),
    }
}
