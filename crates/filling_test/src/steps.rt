// The calls that take copies or take one back, in the slots that are lent, with their printed lines.
use filling::State;
use index::{Bucket, Entry};
use next_copies::Taken;
use replay::command::{Command, Step};
use replay::lend::Lengths;
use replay::{lend, show};
use step::Stepped;

fn show_step(r: &Stepped) {
    io::write_all(1, b"next ");
    show::verdict(r.verdict);
    show::state(&r.state);
    show::end();
}

fn show_taken(r: &Taken) {
    io::write_all(1, b"stack ");
    show::verdict(r.verdict);
    show::number(r.took);
    show::state(&r.state);
    show::end();
}

// The next copy, in the slots that are lent.
fn next_copy(
    state: &mut State,
    lengths: &Lengths,
    bytes: &[u8],
    shapes: &[f64],
    sheet: &[f64],
    placed: &mut [f64],
    sheet_entries: &[Entry],
    placed_entries: &mut [Entry],
    sheet_firsts: &[Bucket],
    placed_firsts: &mut [Bucket],
    intervals: &mut [f64],
) {
    let r = next_copy::next_copy(
        lend::lent(bytes, lengths[9]),
        *state,
        lend::lent(shapes, lengths[0]),
        lend::lent(sheet, lengths[1]),
        lend::lent_mut(placed, lengths[2]),
        lend::lent(sheet_entries, lengths[3]),
        lend::lent_mut(placed_entries, lengths[4]),
        lend::lent(sheet_firsts, lengths[5]),
        lend::lent_mut(placed_firsts, lengths[6]),
        lend::lent_mut(intervals, lengths[7]),
    );
    show_step(&r);
    *state = r.state;
}

// The next n copies, in the slots that are lent.
fn next_copies(
    n: usize,
    state: &mut State,
    lengths: &Lengths,
    bytes: &[u8],
    shapes: &[f64],
    sheet: &[f64],
    placed: &mut [f64],
    sheet_entries: &[Entry],
    placed_entries: &mut [Entry],
    sheet_firsts: &[Bucket],
    placed_firsts: &mut [Bucket],
    intervals: &mut [f64],
) {
    let r = next_copies::next_copies(
        lend::lent(bytes, lengths[9]),
        n,
        *state,
        lend::lent(shapes, lengths[0]),
        lend::lent(sheet, lengths[1]),
        lend::lent_mut(placed, lengths[2]),
        lend::lent(sheet_entries, lengths[3]),
        lend::lent_mut(placed_entries, lengths[4]),
        lend::lent(sheet_firsts, lengths[5]),
        lend::lent_mut(placed_firsts, lengths[6]),
        lend::lent_mut(intervals, lengths[7]),
    );
    show_taken(&r);
    *state = r.state;
}

// The copy at a place taken back, in the slots that are lent.
fn withdraw(
    place: usize,
    state: &mut State,
    lengths: &Lengths,
    bytes: &[u8],
    shapes: &[f64],
    sheet: &[f64],
    placed: &mut [f64],
    sheet_entries: &[Entry],
    placed_entries: &mut [Entry],
    sheet_firsts: &[Bucket],
    placed_firsts: &mut [Bucket],
) {
    let r = withdraw::withdraw(
        lend::lent(bytes, lengths[9]),
        place,
        *state,
        lend::lent(shapes, lengths[0]),
        lend::lent(sheet, lengths[1]),
        lend::lent_mut(placed, lengths[2]),
        lend::lent(sheet_entries, lengths[3]),
        lend::lent_mut(placed_entries, lengths[4]),
        lend::lent(sheet_firsts, lengths[5]),
        lend::lent_mut(placed_firsts, lengths[6]),
    );
    show_step(&r);
    *state = r.state;
}

// The next copy, or the next n copies.
fn take(
    c: Command,
    state: &mut State,
    lengths: &Lengths,
    bytes: &[u8],
    shapes: &[f64],
    sheet: &[f64],
    placed: &mut [f64],
    sheet_entries: &[Entry],
    placed_entries: &mut [Entry],
    sheet_firsts: &[Bucket],
    placed_firsts: &mut [Bucket],
    intervals: &mut [f64],
) {
    if c.step == Step::Next {
        next_copy(
            state,
            lengths,
            bytes,
            shapes,
            sheet,
            placed,
            sheet_entries,
            placed_entries,
            sheet_firsts,
            placed_firsts,
            intervals,
        );
    } else {
        next_copies(
            c.n,
            state,
            lengths,
            bytes,
            shapes,
            sheet,
            placed,
            sheet_entries,
            placed_entries,
            sheet_firsts,
            placed_firsts,
            intervals,
        );
    }
}

// Copies taken, or the copy at place n taken back.
pub fn step(
    c: Command,
    state: &mut State,
    lengths: &Lengths,
    bytes: &[u8],
    shapes: &[f64],
    sheet: &[f64],
    placed: &mut [f64],
    sheet_entries: &[Entry],
    placed_entries: &mut [Entry],
    sheet_firsts: &[Bucket],
    placed_firsts: &mut [Bucket],
    intervals: &mut [f64],
) {
    if c.step == Step::Withdraw {
        withdraw(
            c.n,
            state,
            lengths,
            bytes,
            shapes,
            sheet,
            placed,
            sheet_entries,
            placed_entries,
            sheet_firsts,
            placed_firsts,
        );
    } else {
        take(
            c,
            state,
            lengths,
            bytes,
            shapes,
            sheet,
            placed,
            sheet_entries,
            placed_entries,
            sheet_firsts,
            placed_firsts,
            intervals,
        );
    }
}
