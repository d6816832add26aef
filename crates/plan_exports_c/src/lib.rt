// The exports of plan_exports for C and Rust (`tools/build.sh plan_exports`, include/panel.h): each calls the
// library's function and states its clauses again.
#![tactic(auto)]

ghost use Rattle.std.specs.Prelude.{◌≡◌};
ghost use Rattle.filling.specs.Rooms.{lent_of, rooms_of};
ghost use Rattle.plan_text.specs.Told.{text_reply_of};
ghost use Rattle.plan_exports.specs.Numbered.{numbered_fill};
ghost use Rattle.plan_exports.specs.Lined.{lined_layout};

use index::{Bucket, Entry};

// Where the text ends, or 0 for a buffer of less than 589,824 bytes.
#[unsafe(no_mangle)]
pub extern "C" fn panel_nest(
    bytes: &[u8],
    shapes: &mut [f64],
    sheet: &mut [f64],
    placed: &mut [f64],
    sheet_entries: &mut [Entry],
    placed_entries: &mut [Entry],
    sheet_firsts: &mut [Bucket],
    placed_firsts: &mut [Bucket],
    intervals: &mut [f64],
    positions: &mut [f64],
    out: &mut [u8],
) -> usize
    ensures { record {
      end = result;
      out = out.new;
      lent = lent_of shapes.new sheet.new placed.new
          sheet_entries.new placed_entries.new sheet_firsts.new placed_firsts.new
          intervals.new positions.new;
    }
        ≡ text_reply_of bytes.now out.old
        (lent_of shapes.old sheet.old placed.old
        sheet_entries.old placed_entries.old sheet_firsts.old placed_firsts.old
        intervals.old positions.old) }
{
    plan_exports::panel_nest(
        bytes,
        shapes,
        sheet,
        placed,
        sheet_entries,
        placed_entries,
        sheet_firsts,
        placed_firsts,
        intervals,
        positions,
        out,
    )
}

// The number of a refused filling, or 0; the positions lie in their room.
#[unsafe(no_mangle)]
pub extern "C" fn panel_fill(
    bytes: &[u8],
    order: &[usize],
    shapes: &mut [f64],
    sheet: &mut [f64],
    placed: &mut [f64],
    sheet_entries: &mut [Entry],
    placed_entries: &mut [Entry],
    sheet_firsts: &mut [Bucket],
    placed_firsts: &mut [Bucket],
    intervals: &mut [f64],
    positions: &mut [f64],
) -> u64
    ensures { record {
      number = result;
      lent = lent_of shapes.new sheet.new placed.new
          sheet_entries.new placed_entries.new sheet_firsts.new placed_firsts.new
          intervals.new positions.new;
    }
        ≡ numbered_fill bytes.now order.now
        (lent_of shapes.old sheet.old placed.old
        sheet_entries.old placed_entries.old sheet_firsts.old placed_firsts.old
        intervals.old positions.old) }
{
    plan_exports::given::panel_fill(
        bytes,
        order,
        shapes,
        sheet,
        placed,
        sheet_entries,
        placed_entries,
        sheet_firsts,
        placed_firsts,
        intervals,
        positions,
    )
}

// The number of the refusal, or 0. The first place of `line` has the line that it speaks of: how many were accepted before it.
#[unsafe(no_mangle)]
pub extern "C" fn panel_layout(
    bytes: &[u8],
    given: &[u64],
    shapes: &mut [f64],
    sheet: &mut [f64],
    placed: &mut [f64],
    sheet_entries: &mut [Entry],
    placed_entries: &mut [Entry],
    sheet_firsts: &mut [Bucket],
    placed_firsts: &mut [Bucket],
    line: &mut [usize],
) -> u64
    ensures { record {
      number = result;
      line = line.new;
      rooms = rooms_of shapes.new sheet.new placed.new
          sheet_entries.new placed_entries.new sheet_firsts.new placed_firsts.new;
    }
        ≡ lined_layout bytes.now given.now line.old
        (rooms_of shapes.old sheet.old placed.old
        sheet_entries.old placed_entries.old sheet_firsts.old placed_firsts.old) }
{
    plan_exports::layout::panel_layout(
        bytes,
        given,
        shapes,
        sheet,
        placed,
        sheet_entries,
        placed_entries,
        sheet_firsts,
        placed_firsts,
        line,
    )
}
