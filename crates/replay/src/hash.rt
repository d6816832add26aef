// Hashes of rooms and of a state: each number is mixed in by a draw.
use crate::slot::Slot;
use filling::{Layout, Plan, State, Tables};
use strips::Rect;

// One more number.
pub fn mix<T: Slot>(h: u64, x: T) -> u64 {
    let mut state = h ^ x.bits();
    random::next_random(&mut state)
}

// All of a room's.
pub fn slots<T: Slot>(start: u64, room: &[T]) -> u64 {
    let mut h = start;
    for x in room {
        h = mix(h, *x);
    }
    h
}

fn rect(start: u64, b: Rect) -> u64 {
    let h = mix(start, b.left);
    let h = mix(h, b.bottom);
    let h = mix(h, b.right);
    mix(h, b.top)
}

fn tables(start: u64, t: &Tables) -> u64 {
    let h = mix(start, t.resolution);
    let h = rect(h, t.sheet_bounds);
    let h = mix(h, t.sheet_strips);
    let h = mix(h, t.apart_strips);
    let h = slots(h, &t.inset_bounds);
    slots(h, &t.parts)
}

fn layout(start: u64, l: &Layout) -> u64 {
    let h = slots(start, &l.orientation);
    let h = slots(h, &l.x);
    let h = slots(h, &l.y);
    let h = slots(h, &l.gap);
    let h = mix(h, l.unplaced_area);
    mix(h, l.right)
}

// All of a state's 30,731 numbers, in the order of its fields.
pub fn state(s: &State) -> u64 {
    let h = tables(30731, &s.tables);
    let h = slots(h, &s.order);
    let h = mix(h, s.taken);
    let h = slots(h, &s.next_column);
    let h = slots(h, &s.look_counts);
    let h = mix(h, s.placed_strips);
    layout(h, &s.layout)
}

// A plan's tables: copies placed and unplaced by kind, look counts by slot.
pub fn counts(p: &Plan) -> u64 {
    let h = slots(1152, &p.placed_of);
    let h = slots(h, &p.unplaced_of);
    slots(h, &p.look_counts)
}
