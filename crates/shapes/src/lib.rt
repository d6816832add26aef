// The shapes of a job (document 01, "the shapes' strips by kind and orientation, apart before
// inset"): their strips, their parts of the room and their inset bounds, by slot. A slot is
// 16 × kind + orientation. Only crates of ours call it, so it may require that the tables are long
// enough.
#![tactic(auto)]

pub mod set_strips;
pub mod slots;

ghost use Rattle.std.specs.Prelude.{◌≡◌, ◌≤◌, length};
ghost use Rattle.filling.specs.State.{by_slot};
ghost use Rattle.shapes.specs.slots.inner.Slots.{slot_of};
ghost use Rattle.shapes.specs.inner.ShapeRooms.{ShapesAre};

use crate::set_strips::Scratch;
use frames::Frame;

// The shapes' strips go into their room, all apart strips by slot and then all inset strips; their
// inset bounds and their parts of the room go into tables of four numbers to a slot.
pub fn lay_shapes(
    bytes: &[u8],
    rows: &[u64],
    places: &[u32],
    kinds: usize,
    shapes: &mut [f64],
    inset_bounds: &mut [f64],
    parts: &mut [usize],
    f: Frame,
) -> Option<(usize, usize)>
    requires { (256 ≤ length rows.now) × (2048 ≤ length places.now) × (length inset_bounds.old ≡ 4096) × (length parts.old ≡ 4096) }
    ensures { ShapesAre result (by_slot (slot_of f bytes.now rows.now places.now kinds)) shapes.old
        shapes.new inset_bounds.new parts.new }
{
    let mut scratch = Scratch::new();
    let apart = slots::lay_slots(
        bytes,
        rows,
        places,
        kinds,
        0,
        &mut scratch,
        shapes,
        0,
        parts,
        f,
    )?;
    let inset = slots::lay_slots(
        bytes,
        rows,
        places,
        kinds,
        1,
        &mut scratch,
        shapes,
        apart,
        parts,
        f,
    )?;
    slots::lay_bounds(bytes, rows, places, kinds, &mut scratch, inset_bounds, f);
    Some((apart, inset))
}
