// The leaf that hands back the inset strips or the apart strips of one orientation (document 01,
// "Filling"), and refusal 9. Slots are 16 × kind + orientation. Both operations read the job for each
// call: a shop's program calls them after a start, and no filling does.
#![tactic(auto)]

ghost use Rattle.std.specs.Prelude.{◌≡◌, List, ◌+◌, ◌*◌, ◌≤◌, ◌<◌, length, get_or, Float};
ghost use Rattle.job.specs.Jobs.{Job};
ghost use Rattle.filling.specs.Leaf.{lacks, shape_verdict, strips_by_kind};
ghost use Rattle.accounts.specs.tables.inner.Tabled.{Tabled};

use filling::Refusal;

// Whether the job that was read into the tables lacks the orientation of the kind. Only crates of ours
// call it.
pub fn lacks(rows: &[u64], kinds: u64, kind: usize, orientation: usize) -> bool
    requires { (kinds ≤ 64) × (256 ≤ length rows.now) }
    ensures { (j : Job) (areas : List Float) → Tabled j rows.now areas → length j.kinds ≡ kinds → result ≡ lacks j kind orientation }
{
    kinds as usize <= kind || rows[4 * kind + 3] as usize <= orientation
}

// Of the four numbers of a slot the one at `field`; 0 where the table ends before.
fn number_at(parts: &[usize], kind: usize, orientation: usize, field: usize) -> usize
    requires { field < 4 }
    ensures { result ≡ get_or parts.now (4 * (16 * kind + orientation) + field) 0 }
{
    if parts.len() / 64 < kind || parts.len() / 4 < orientation {
        return 0;
    }
    *parts
        .get(4 * (16 * kind + orientation) + field)
        .unwrap_or(&0)
}

// Whether the job has the orientation of the kind: the job's number, 9, or accepted.
pub fn shape_verdict(bytes: &[u8], kind: usize, orientation: usize) -> Result<(), Refusal>
    ensures { result ≡ shape_verdict bytes.now kind orientation }
{
    let j = job::read(bytes);
    let (h, _, _) = j.answer?;
    let rows = j.rows;
    if lacks(&rows, h.kinds, kind, orientation) {
        return Err(Refusal::MissingShape);
    }
    Ok(())
}

// The inset strips or the apart strips of one orientation; an empty part where `shape_verdict`
// refuses. `parts` is the table of the state that a start leaves.
pub fn strips_by_kind<'a>(
    bytes: &[u8],
    parts: &[usize],
    apart: &'a [f64],
    inset: &'a [f64],
    kind: usize,
    orientation: usize,
    is_inset: bool,
) -> &'a [f64]
    ensures { result.now ≡ strips_by_kind bytes.now parts.now apart.now inset.now
        kind orientation is_inset }
{
    if shape_verdict(bytes, kind, orientation).is_err() {
        return &apart[0..0];
    }
    let field = if is_inset { 2 } else { 0 };
    let from = number_at(parts, kind, orientation, field);
    let count = number_at(parts, kind, orientation, field + 1);
    trapezoid::strips_of(apart, inset, is_inset, from, count)
}
