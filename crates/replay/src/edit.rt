// Rooms filled with garbage, and numbers of rooms and of a state changed one at a time.
use crate::command::{Command, Step};
use crate::show;
use crate::slot::Slot;
use filling::{Layout, State, Tables};
use strips::Rect;

// Garbage from slot `from` on.
pub fn spoil<T: Slot>(room: &mut [T], from: usize, seed: u64) {
    let mut state = seed;
    for x in room.iter_mut().skip(from) {
        *x = T::garbage(random::next_random(&mut state));
    }
}

// Slot i, where there is one.
fn set<T: Slot>(room: &mut [T], i: usize, bits: u64) {
    if let Some(x) = room.get_mut(i) {
        *x = T::of_bits(bits);
    }
}

// What a command does to a lent room: garbage, one slot, print it or its hash.
pub fn obey<T: Slot>(c: Command, room: &mut [T]) {
    match c.step {
        Step::Spoil => spoil(room, c.n, c.m),
        Step::Set => set(room, c.n, c.m),
        Step::Print => show::slots(c.a, room),
        Step::Hash => show::hash_of(room),
        _ => {}
    }
}

fn set_bound(b: &mut Rect, n: usize, x: f64) {
    match n {
        0 => b.left = x,
        1 => b.bottom = x,
        2 => b.right = x,
        _ => b.top = x,
    }
}

// The state with one number changed: number a, 0 to 16 in the order of its fields, at n where it has many.
pub fn edit(c: Command, s: &mut State) {
    let k = c.m as usize;
    let x = f64::of_bits(c.m);
    match c.a {
        0 => s.tables.resolution = x,
        1 => set_bound(&mut s.tables.sheet_bounds, c.n, x),
        2 => s.tables.sheet_strips = k,
        3 => s.tables.apart_strips = k,
        4 => set(&mut s.tables.inset_bounds, c.n, c.m),
        5 => set(&mut s.tables.parts, c.n, c.m),
        6 => set(&mut s.order, c.n, c.m),
        7 => s.taken = k,
        8 => set(&mut s.next_column, c.n, c.m),
        9 => set(&mut s.look_counts, c.n, c.m),
        10 => s.placed_strips = k,
        11 => set(&mut s.layout.orientation, c.n, c.m),
        12 => set(&mut s.layout.x, c.n, c.m),
        13 => set(&mut s.layout.y, c.n, c.m),
        14 => set(&mut s.layout.gap, c.n, c.m),
        15 => s.layout.unplaced_area = x,
        _ => s.layout.right = x,
    }
}

fn zero_tables() -> Tables {
    Tables {
        resolution: 0.0,
        sheet_bounds: Rect {
            left: 0.0,
            bottom: 0.0,
            right: 0.0,
            top: 0.0,
        },
        sheet_strips: 0,
        apart_strips: 0,
        inset_bounds: [0.0; 4096],
        parts: [0; 4096],
    }
}

fn zero_layout() -> Layout {
    Layout {
        orientation: [0; 4096],
        x: [0.0; 4096],
        y: [0.0; 4096],
        gap: [0.0; 4096],
        unplaced_area: 0.0,
        right: 0.0,
    }
}

// The state before the first start.
pub fn zero_state() -> State {
    State {
        tables: zero_tables(),
        order: [0; 4096],
        taken: 0,
        next_column: [0; 1024],
        look_counts: [0; 1024],
        placed_strips: 0,
        layout: zero_layout(),
    }
}
