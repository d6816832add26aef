// The calls, in the slots that are lent, with their printed lines. Those that take copies or take one back are in steps.rt.
use crate::steps;
use filling::State;
use index::{Bucket, Entry};
use replay::command::{Command, Step};
use replay::lend::Lengths;
use replay::{lend, show};
use report::NestResult;
use start::replies::Started;

fn show_start(r: &Started) {
    io::write_all(1, b"start ");
    show::verdict(r.verdict);
    show::state(&r.state);
    show::end();
}

fn show_filling(r: &NestResult) {
    io::write_all(1, b"fill ");
    show::verdict(r.verdict);
    show::plan(&r.plan);
    show::end();
}

// A start, in the slots that are lent.
fn start(
    state: &mut State,
    lengths: &Lengths,
    bytes: &[u8],
    order: &[usize],
    shapes: &mut [f64],
    sheet: &mut [f64],
    placed: &mut [f64],
    sheet_entries: &mut [Entry],
    placed_entries: &mut [Entry],
    sheet_firsts: &mut [Bucket],
    placed_firsts: &mut [Bucket],
    intervals: &mut [f64],
    positions: &mut [f64],
) {
    let r = start::start(
        lend::lent(bytes, lengths[9]),
        lend::lent(order, lengths[10]),
        lend::lent_mut(shapes, lengths[0]),
        lend::lent_mut(sheet, lengths[1]),
        lend::lent_mut(placed, lengths[2]),
        lend::lent_mut(sheet_entries, lengths[3]),
        lend::lent_mut(placed_entries, lengths[4]),
        lend::lent_mut(sheet_firsts, lengths[5]),
        lend::lent_mut(placed_firsts, lengths[6]),
        lend::lent_mut(intervals, lengths[7]),
        lend::lent_mut(positions, lengths[8]),
    );
    show_start(&r);
    *state = r.state;
}

// A filling, in the slots that are lent.
fn fill(
    lengths: &Lengths,
    bytes: &[u8],
    order: &[usize],
    shapes: &mut [f64],
    sheet: &mut [f64],
    placed: &mut [f64],
    sheet_entries: &mut [Entry],
    placed_entries: &mut [Entry],
    sheet_firsts: &mut [Bucket],
    placed_firsts: &mut [Bucket],
    intervals: &mut [f64],
    positions: &mut [f64],
) {
    let r = fill::fill(
        lend::lent(bytes, lengths[9]),
        lend::lent(order, lengths[10]),
        lend::lent_mut(shapes, lengths[0]),
        lend::lent_mut(sheet, lengths[1]),
        lend::lent_mut(placed, lengths[2]),
        lend::lent_mut(sheet_entries, lengths[3]),
        lend::lent_mut(placed_entries, lengths[4]),
        lend::lent_mut(sheet_firsts, lengths[5]),
        lend::lent_mut(placed_firsts, lengths[6]),
        lend::lent_mut(intervals, lengths[7]),
        lend::lent_mut(positions, lengths[8]),
    );
    show_filling(&r);
}

// A start, or a filling, which leaves the state alone.
fn start_or_fill(
    c: Command,
    state: &mut State,
    lengths: &Lengths,
    bytes: &[u8],
    order: &[usize],
    shapes: &mut [f64],
    sheet: &mut [f64],
    placed: &mut [f64],
    sheet_entries: &mut [Entry],
    placed_entries: &mut [Entry],
    sheet_firsts: &mut [Bucket],
    placed_firsts: &mut [Bucket],
    intervals: &mut [f64],
    positions: &mut [f64],
) {
    if c.step == Step::Fill {
        fill(
            lengths,
            bytes,
            order,
            shapes,
            sheet,
            placed,
            sheet_entries,
            placed_entries,
            sheet_firsts,
            placed_firsts,
            intervals,
            positions,
        );
    } else {
        start(
            state,
            lengths,
            bytes,
            order,
            shapes,
            sheet,
            placed,
            sheet_entries,
            placed_entries,
            sheet_firsts,
            placed_firsts,
            intervals,
            positions,
        );
    }
}

// The calls: steps, a start or a filling.
pub fn call(
    c: Command,
    state: &mut State,
    lengths: &Lengths,
    bytes: &[u8],
    order: &[usize],
    shapes: &mut [f64],
    sheet: &mut [f64],
    placed: &mut [f64],
    sheet_entries: &mut [Entry],
    placed_entries: &mut [Entry],
    sheet_firsts: &mut [Bucket],
    placed_firsts: &mut [Bucket],
    intervals: &mut [f64],
    positions: &mut [f64],
) {
    match c.step {
        Step::Next | Step::Stack | Step::Withdraw => steps::step(
            c,
            state,
            lengths,
            bytes,
            shapes,
            sheet,
            placed,
            sheet_entries,
            placed_entries,
            sheet_firsts,
            placed_firsts,
            intervals,
        ),
        _ => start_or_fill(
            c,
            state,
            lengths,
            bytes,
            order,
            shapes,
            sheet,
            placed,
            sheet_entries,
            placed_entries,
            sheet_firsts,
            placed_firsts,
            intervals,
            positions,
        ),
    }
}
