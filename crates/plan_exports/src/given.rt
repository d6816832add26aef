// The filling in a given order.
ghost use Rattle.std.specs.Prelude.{◌≡◌};
ghost use Rattle.filling.specs.Rooms.{lent_of};
ghost use Rattle.plan_exports.specs.Numbered.{numbered_fill};

use index::{Bucket, Entry};

// The number of a refused filling, or 0; the positions lie in their room.
#[unsafe(no_mangle)]
pub extern "C" fn panel_fill(
    bytes: &[u8],
    order: &[usize],
    shapes: &mut [f64],
    sheet: &mut [f64],
    placed: &mut [f64],
    sheet_entries: &mut [Entry],
    placed_entries: &mut [Entry],
    sheet_firsts: &mut [Bucket],
    placed_firsts: &mut [Bucket],
    intervals: &mut [f64],
    positions: &mut [f64],
) -> u64
    ensures { record {
      number = result;
      lent = lent_of shapes.new sheet.new placed.new
          sheet_entries.new placed_entries.new sheet_firsts.new placed_firsts.new
          intervals.new positions.new;
    }
        ≡ numbered_fill bytes.now order.now
        (lent_of shapes.old sheet.old placed.old
        sheet_entries.old placed_entries.old sheet_firsts.old placed_firsts.old
        intervals.old positions.old) }
{
    let r = fill::fill(
        bytes,
        order,
        shapes,
        sheet,
        placed,
        sheet_entries,
        placed_entries,
        sheet_firsts,
        placed_firsts,
        intervals,
        positions,
    );
    accounts::verdicts::verdict_number(r.verdict)
}
