// Passes over the slots of a job: the strips of all apart sets or of all inset sets, and the inset
// bounds. A slot is 16 × kind + orientation. Only crates of ours call these functions, so they may
// require that the tables are long enough.
ghost use Rattle.std.specs.Prelude.{◌≡◌, ◌≢◌, ℕ, ◌+◌, ◌*◌, ◌≤◌, ◌<◌, length};
ghost use Rattle.filling.specs.State.{bounds_at};
ghost use Rattle.shapes.specs.slots.inner.Slots.{in_use, slot_strips, slot_bounds, SlotsLaid, BoundsTo};
ghost use Rattle.strips.specs.inner.Tables.{Stowed, strips_stored};

use crate::set_strips;
use crate::set_strips::Scratch;
use frames::Frame;
use strips::Rect;

// Whether the job has slot i.
#[tactic(auto, unfolding(crate::specs::slots::inner::Slots::in_use))]
fn in_use(rows: &[u64], kinds: usize, i: usize) -> bool
    requires { (256 ≤ length rows.now) × (i < 1024) }
    ensures { result ≡ in_use rows.now kinds i }
{
    let kind = i / 16;
    kind < kinds && i % 16 < rows[4 * kind + 3] as usize
}

// The strips of slot i go into the room from strip `from` on: those of its apart set (0) or of its
// inset set (1).
fn slot_strips(
    bytes: &[u8],
    rows: &[u64],
    places: &[u32],
    kinds: usize,
    which: usize,
    i: usize,
    scratch: &mut Scratch,
    shapes: &mut [f64],
    from: usize,
    f: Frame,
) -> Option<usize>
    requires { (256 ≤ length rows.now) × (2048 ≤ length places.now) × (which < 2) × (i < 1024) × (6 * from ≤ length shapes.old) }
    ensures { record { answer = result; room = shapes.new } ≡ strips_stored (slot_strips f bytes.now rows.now
        places.now kinds which i) shapes.old from }
{
    if !in_use(rows, kinds, i) {
        return Some(0);
    }
    let at = places[2 * i + which];
    set_strips::set_strips(bytes, at, false, scratch, shapes, from, f)
}

// The strips of all slots go into the room from strip `from` on; how many they are, or that they do
// not fit. Two of the four numbers to a slot are written: how many of them lie before its own, and
// how many are its own.
pub fn lay_slots(
    bytes: &[u8],
    rows: &[u64],
    places: &[u32],
    kinds: usize,
    which: usize,
    scratch: &mut Scratch,
    shapes: &mut [f64],
    from: usize,
    parts: &mut [usize],
    f: Frame,
) -> Option<usize>
    requires { (256 ≤ length rows.now) × (2048 ≤ length places.now) × (which < 2) × (6 * from ≤ length shapes.old)
        × (4096 ≤ length parts.old) }
    ensures { SlotsLaid result which (slot_strips f bytes.now rows.now places.now kinds which) 1024 from shapes.old
        shapes.new parts.old parts.new }
{
    let mut held = from;
    for i in 0..1024 {
        let n = slot_strips(
            bytes, rows, places, kinds, which, i, scratch, shapes, held, f,
        )?;
        let at = 4 * i + 2 * which;
        parts[at] = held - from;
        parts[at + 1] = n;
        held += n;
    }
    Some(held - from)
}

// The inset bounds of slot i; zeros where the job lacks it.
fn slot_bounds(
    bytes: &[u8],
    rows: &[u64],
    places: &[u32],
    kinds: usize,
    i: usize,
    scratch: &mut Scratch,
    f: Frame,
) -> Rect
    requires { (256 ≤ length rows.now) × (2048 ≤ length places.now) × (i < 1024) }
    ensures { result ≡ slot_bounds f bytes.now rows.now places.now kinds i }
{
    if !in_use(rows, kinds, i) {
        return Rect {
            left: 0.0,
            bottom: 0.0,
            right: 0.0,
            top: 0.0,
        };
    }
    let at = places[2 * i + 1];
    set_strips::set_bounds(bytes, at, scratch, f)
}

// The bounds b as those of slot i.
fn put_bounds(table: &mut [f64], i: usize, b: Rect)
    requires { 4 * i + 4 ≤ length table.old }
    ensures { (bounds_at table.new i ≡ b) × ((q : ℕ) → q ≢ i → bounds_at table.new q ≡ bounds_at table.old q) }
{
    let at = 4 * i;
    table[at] = b.left;
    table[at + 1] = b.bottom;
    table[at + 2] = b.right;
    table[at + 3] = b.top;
}

// The inset bounds of all slots.
pub fn lay_bounds(
    bytes: &[u8],
    rows: &[u64],
    places: &[u32],
    kinds: usize,
    scratch: &mut Scratch,
    table: &mut [f64],
    f: Frame,
)
    requires { (256 ≤ length rows.now) × (2048 ≤ length places.now) × (4096 ≤ length table.old) }
    ensures { BoundsTo (slot_bounds f bytes.now rows.now places.now kinds) 1024 table.old
        table.new }
{
    for i in 0..1024 {
        let b = slot_bounds(bytes, rows, places, kinds, i, scratch, f);
        put_bounds(table, i, b);
    }
}
