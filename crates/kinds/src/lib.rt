// Kinds (document 01, "The job's bits"), read into lent tables: rows has four numbers for each kind
// (quantity, fill, priority as 32 bits, orientations), areas its area, and places for each slot,
// 16 × kind + orientation, the bit positions of its apart and its inset set. The functions are
// called by this project's crates alone.
#![tactic(auto)]

pub mod sets;

ghost use Rattle.std.specs.Prelude.{◌≡◌, ◌+◌, ◌*◌, ◌≤◌, ◌<◌, [], length, take};
ghost use Rattle.kinds.specs.sets.inner.Answers.{run_read, run_fits};
ghost use Rattle.kinds.specs.Kinds.{signed, lower, an_orientation, some_orientations, kind_head, a_kind, some_kinds, head_at};
ghost use Rattle.kinds.specs.inner.Tables.{head_read, orientation_at, orientations_of, kind_read, kinds_read, head_fits, kind_fits, kinds_fit};

use bits::Refusal;

// The two sets of a slot: where each begins, into the table. The rooms take each set in turn.
fn read_orientation(
    bytes: &[u8],
    at: usize,
    slot: usize,
    places: &mut [u32],
    room: &mut [f64],
    ends: &mut [usize],
) -> Result<usize, Refusal>
    requires { (at ≤ 4000000000) × (slot < 1024) × (2048 ≤ length places.old) × (1024 ≤ length room.old) × (64 ≤ length ends.old) }
    ensures { (an_orientation bytes.now at ≡ run_read result (orientation_at bytes.now places.new slot))
        × run_fits result (at + 132366) × (take (2 * slot) places.new ≡ take (2 * slot) places.old) }
{
    let apart = at as u32;
    let (_, _, p) = sets::read_set(bytes, apart, room, ends)?;
    let inset = p as u32;
    let (_, _, q) = sets::read_set(bytes, inset, room, ends)?;
    let j = 2 * slot;
    places[j] = apart;
    places[j + 1] = inset;
    Ok(q)
}

// The n orientations of a kind.
fn read_orientations(
    bytes: &[u8],
    at: usize,
    n: usize,
    kind: usize,
    places: &mut [u32],
    room: &mut [f64],
    ends: &mut [usize],
) -> Result<usize, Refusal>
    requires { (at ≤ 3000000000) × (n ≤ 16) × (kind < 64) × (2048 ≤ length places.old) × (1024 ≤ length room.old) × (64 ≤ length ends.old) }
    ensures { (some_orientations n [] bytes.now at ≡ run_read result (orientations_of bytes.now places.new kind n))
        × run_fits result (at + 132366 * n) × (take (32 * kind) places.new ≡ take (32 * kind) places.old) }
{
    let mut p = at;
    for i in 0..n {
        p = read_orientation(bytes, p, 16 * kind + i, places, room, ends)?;
    }
    Ok(p)
}

// A kind's fields before its sets; the priority as 32 bits.
#[derive(Clone, Copy)]
pub struct KindHead {
    pub quantity: u64,
    pub fill: u64,
    pub priority: u64,
    pub area: f64,
    pub orientations: u64,
}

fn read_head(bytes: &[u8], at: usize) -> Result<KindHead, Refusal>
    requires { at ≤ 3000000000 }
    ensures { (kind_head bytes.now at ≡ head_read result (at + 12 + 1 + 32 + 64 + 5)) × head_fits result }
{
    let quantity = bits::read_count(bytes, at, 12, 1, 4095)?;
    let at_fill = at + 12;
    let fill = bits::read_field(bytes, at_fill, 1)?;
    let at_priority = at_fill + 1;
    let priority = bits::read_field(bytes, at_priority, 32)?;
    let at_area = at_priority + 32;
    let area = bits::read_number(bytes, at_area, 0.0, 1000000000000.0)?;
    let orientations = bits::read_count(bytes, at_area + 64, 5, 1, 16)?;
    Ok(KindHead {
        quantity,
        fill,
        priority,
        area,
        orientations,
    })
}

// A kind, with the places of its sets in the table.
fn read_kind(
    bytes: &[u8],
    at: usize,
    kind: usize,
    places: &mut [u32],
    room: &mut [f64],
    ends: &mut [usize],
) -> Result<(KindHead, usize), Refusal>
    requires { (at ≤ 2000000000) × (kind < 64) × (2048 ≤ length places.old) × (1024 ≤ length room.old) × (64 ≤ length ends.old) }
    ensures { (a_kind bytes.now at ≡ kind_read result bytes.now places.new kind) × kind_fits result (at + 2117970)
        × (take (32 * kind) places.new ≡ take (32 * kind) places.old) }
{
    let h = read_head(bytes, at)?;
    let n = h.orientations as usize;
    let q = read_orientations(bytes, at + 114, n, kind, places, room, ends)?;
    Ok((h, q))
}

// A kind's fields, into the tables.
fn put_head(rows: &mut [u64], areas: &mut [f64], kind: usize, h: KindHead)
    requires { (kind < 64) × (256 ≤ length rows.old) × (64 ≤ length areas.old) }
    ensures { (head_at rows.new areas.new kind ≡ h) × (take (4 * kind) rows.new ≡ take (4 * kind) rows.old)
        × (take kind areas.new ≡ take kind areas.old) }
{
    let j = 4 * kind;
    rows[j] = h.quantity;
    rows[j + 1] = h.fill;
    rows[j + 2] = h.priority;
    rows[j + 3] = h.orientations;
    areas[kind] = h.area;
}

// The n kinds of a job, into the tables.
pub fn read_kinds(
    bytes: &[u8],
    at: usize,
    n: usize,
    rows: &mut [u64],
    areas: &mut [f64],
    places: &mut [u32],
    room: &mut [f64],
    ends: &mut [usize],
) -> Result<(u64, usize), Refusal>
    requires { (at ≤ 1000000) × (n ≤ 64) × (256 ≤ length rows.old) × (64 ≤ length areas.old) × (2048 ≤ length places.old) × (1024 ≤ length room.old)
        × (64 ≤ length ends.old) }
    ensures { (some_kinds n [] bytes.now at ≡ kinds_read result bytes.now n rows.new areas.new places.new)
        × kinds_fit result (at + 2117970 * n) bytes.now n rows.new areas.new places.new }
{
    let mut p = at;
    let mut copies = 0;
    for i in 0..n {
        let (h, q) = read_kind(bytes, p, i, places, room, ends)?;
        copies += h.quantity;
        put_head(rows, areas, i, h);
        p = q;
    }
    Ok((copies, p))
}

// Whether priority a, as 32 bits, is lower than priority b.
pub fn lower_priority(a: u64, b: u64) -> bool
    requires { (a < 4294967296) × (b < 4294967296) }
    ensures { result ≡ lower (signed a) (signed b) }
{
    (a as u32).cast_signed() < (b as u32).cast_signed()
}
