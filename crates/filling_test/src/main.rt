// Replays scripts of calls: start, next copy, the next n copies, withdrawal, a filling in a given order, and the leaf,
// in rooms that are filled with garbage and in states that are changed by hand. stdin has the commands that
// oracle/README.md describes; after each call one line has its answer and the state's hash, another
// every room's. The stored answers are those of the oracle's planner with rooms (oracle/samples/filling.py),
// never of this code.
#![tactic(auto)]

mod calls;
mod steps;

ghost use Rattle.std.specs.Prelude.{◌≤◌, ◌<◌};

use filling::State;
use index::{Bucket, Entry};
use replay::command::{Command, Step};
use replay::lend::Lengths;
use replay::{command, edit, lend, show};

// The leaf: kind n, orientation m, inset strips where a is 1.
fn leaf(c: Command, state: &State, lengths: &Lengths, bytes: &[u8], shapes: &[f64]) {
    let bytes = lend::lent(bytes, lengths[9]);
    let shapes = lend::lent(shapes, lengths[0]);
    let apart = lent_strips(state.tables.apart_strips, shapes.len());
    let o = c.m as usize;
    let strips = leaf::strips_by_kind(
        bytes,
        &state.tables.parts,
        &shapes[..apart],
        &shapes[apart..],
        c.n,
        o,
        c.a == 1,
    );
    io::write_all(1, b"leaf ");
    show::verdict(leaf::shape_verdict(bytes, c.n, o));
    show::number(strips.len());
    show::hash_of(strips);
    show::end();
}

// The slots of n strips, at most all.
fn lent_strips(n: usize, most: usize) -> usize
    ensures { result ≤ most }
{
    if n <= most / 6 {
        return 6 * n;
    }
    most
}

// What a command does beside what it gives.
fn obey(
    c: Command,
    state: &mut State,
    lengths: &Lengths,
    bytes: &[u8],
    order: &[usize],
    shapes: &mut [f64],
    sheet: &mut [f64],
    placed: &mut [f64],
    sheet_entries: &mut [Entry],
    placed_entries: &mut [Entry],
    sheet_firsts: &mut [Bucket],
    placed_firsts: &mut [Bucket],
    intervals: &mut [f64],
    positions: &mut [f64],
) {
    match c.step {
        Step::Edit => edit::edit(c, state),
        Step::Leaf => leaf(c, state, lengths, bytes, shapes),
        Step::Start | Step::Fill | Step::Next | Step::Stack | Step::Withdraw => calls::call(
            c,
            state,
            lengths,
            bytes,
            order,
            shapes,
            sheet,
            placed,
            sheet_entries,
            placed_entries,
            sheet_firsts,
            placed_firsts,
            intervals,
            positions,
        ),
        _ => lend::touch_rooms(
            c,
            lengths,
            shapes,
            sheet,
            placed,
            sheet_entries,
            placed_entries,
            sheet_firsts,
            placed_firsts,
            intervals,
            positions,
        ),
    }
}

fn main() {
    let mut lengths: Lengths = [0; 11];
    let mut bytes = [0u8; 66000];
    let mut order = [0usize; 4100];
    let mut shapes = [0.0f64; 8200];
    let mut sheet = [0.0f64; 8200];
    let mut placed = [0.0f64; 8200];
    let mut sheet_entries = [0u16; 16500];
    let mut placed_entries = [0u16; 16500];
    let mut sheet_firsts = [0u16; 1400];
    let mut placed_firsts = [0u16; 1400];
    let mut intervals = [0.0f64; 8200];
    let mut positions = [0.0f64; 24600];
    let mut state = edit::zero_state();
    for _ in 0..1000000000 {
        let Some(c) = command::next() else {
            break;
        };
        lend::load(c, &mut bytes, &mut order, &mut lengths);
        obey(
            c,
            &mut state,
            &lengths,
            &bytes,
            &order,
            &mut shapes,
            &mut sheet,
            &mut placed,
            &mut sheet_entries,
            &mut placed_entries,
            &mut sheet_firsts,
            &mut placed_firsts,
            &mut intervals,
            &mut positions,
        );
    }
}
