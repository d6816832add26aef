// What C and Rust may link (by plan_exports_c, include/panel.h), under plain names: the text of a
// whole plan; a filling in a given order; a layout from elsewhere, judged. Names, arguments and numbers are those
// of include/panel.h.
#![tactic(auto)]

ghost use Rattle.std.specs.Prelude.{◌≡◌};
ghost use Rattle.filling.specs.Rooms.{lent_of};
ghost use Rattle.plan_text.specs.Told.{text_reply_of};

use index::{Bucket, Entry};

pub mod given;
pub mod layout;

// Where the text ends, or 0 for a buffer of less than 589,824 bytes.
#[unsafe(no_mangle)]
pub extern "C" fn panel_nest(
    bytes: &[u8],
    shapes: &mut [f64],
    sheet: &mut [f64],
    placed: &mut [f64],
    sheet_entries: &mut [Entry],
    placed_entries: &mut [Entry],
    sheet_firsts: &mut [Bucket],
    placed_firsts: &mut [Bucket],
    intervals: &mut [f64],
    positions: &mut [f64],
    out: &mut [u8],
) -> usize
    ensures { record {
      end = result;
      out = out.new;
      lent = lent_of shapes.new sheet.new placed.new
          sheet_entries.new placed_entries.new sheet_firsts.new placed_firsts.new
          intervals.new positions.new;
    }
        ≡ text_reply_of bytes.now out.old
        (lent_of shapes.old sheet.old placed.old
        sheet_entries.old placed_entries.old sheet_firsts.old placed_firsts.old
        intervals.old positions.old) }
{
    plan_text::plan_text(
        bytes,
        shapes,
        sheet,
        placed,
        sheet_entries,
        placed_entries,
        sheet_firsts,
        placed_firsts,
        intervals,
        positions,
        out,
    )
}
