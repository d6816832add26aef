// What is lent: commands that fill, change or print rooms, and those that give job, order and lengths.
ghost use Rattle.std.specs.Prelude.{◌≤◌, length};

use crate::command::{Command, Step};
use crate::slot::Slot;
use crate::{command, edit, show};
use index::{Bucket, Entry};

// How many slots of the nine rooms, bytes of the job and places of the order are lent, in this order.
pub type Lengths = [usize; 11];

// The slots of a room that are lent: n, at most all.
pub fn lent<T>(room: &[T], n: usize) -> &[T]
    ensures { length result.now ≤ length room.now }
{
    &room[..n.min(room.len())]
}

pub fn lent_mut<T>(room: &mut [T], n: usize) -> &mut [T]
    ensures { length result.now ≤ length room.old }
{
    let m = n.min(room.len());
    &mut room[..m]
}

// Job, order, a room's length, a title.
pub fn load(c: Command, bytes: &mut [u8], order: &mut [usize], lengths: &mut Lengths) {
    match c.step {
        Step::Job => lengths[9] = command::read_job(c.n, bytes),
        Step::Order => lengths[10] = command::read_order(c.n, order),
        Step::Length => {
            if c.a < 9 {
                lengths[c.a] = c.n;
            }
        }
        Step::Title => command::read_title(c.n),
        _ => {}
    }
}

// What a command does to the n slots of room a that are lent, if it is of that room.
fn touch<T: Slot>(c: Command, a: usize, n: usize, room: &mut [T]) {
    if c.a == a || c.step == Step::Hash {
        edit::obey(c, lent_mut(room, n));
    }
}

// What reads or changes rooms alone: garbage, one slot, printing; the rooms' hashes are one line.
pub fn touch_rooms(
    c: Command,
    lengths: &Lengths,
    shapes: &mut [f64],
    sheet: &mut [f64],
    placed: &mut [f64],
    sheet_entries: &mut [Entry],
    placed_entries: &mut [Entry],
    sheet_firsts: &mut [Bucket],
    placed_firsts: &mut [Bucket],
    intervals: &mut [f64],
    positions: &mut [f64],
) {
    if c.step == Step::Hash {
        io::write_all(1, b"rooms");
    }
    touch(c, 0, lengths[0], shapes);
    touch(c, 1, lengths[1], sheet);
    touch(c, 2, lengths[2], placed);
    touch(c, 3, lengths[3], sheet_entries);
    touch(c, 4, lengths[4], placed_entries);
    touch(c, 5, lengths[5], sheet_firsts);
    touch(c, 6, lengths[6], placed_firsts);
    touch(c, 7, lengths[7], intervals);
    touch(c, 8, lengths[8], positions);
    if c.step == Step::Hash {
        show::end();
    }
}
