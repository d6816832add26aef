// The printed lines.
use crate::hash;
use crate::slot::Slot;
use filling::{Plan, State};

// 0, or the number of a refusal.
pub fn verdict(v: Result<(), filling::Refusal>) {
    io::print_decimal(1, accounts::verdicts::verdict_number(v));
}

pub fn number(n: usize) {
    io::write_all(1, b" ");
    io::print_decimal(1, n as u64);
}

// A number's bits.
pub fn word<T: Slot>(x: T) {
    io::write_all(1, b" ");
    io::print_hex(1, x.bits(), 16);
}

pub fn end() {
    io::write_all(1, b"\n");
}

// Every slot of room a.
pub fn slots<T: Slot>(a: usize, room: &[T]) {
    io::write_all(1, b"room");
    number(a);
    for x in room {
        word(*x);
    }
    end();
}

// The hash of a room, which begins with its length.
pub fn hash_of<T: Slot>(room: &[T]) {
    word(hash::slots(room.len() as u64, room));
}

// Copies taken, placed strips, right, unplaced area and the hash of the whole state.
pub fn state(s: &State) {
    number(s.taken);
    number(s.placed_strips);
    word(s.layout.right);
    word(s.layout.unplaced_area);
    word(hash::state(s));
}

// Copies placed and unplaced, right, unplaced area, offcut and the hash of the tables.
pub fn plan(p: &Plan) {
    number(p.placed);
    number(p.unplaced);
    word(p.right);
    word(p.unplaced_area);
    word(p.offcut);
    word(hash::counts(p));
}
