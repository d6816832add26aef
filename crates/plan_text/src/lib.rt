// The public operation `plan_text`: the whole plan of a job as its printed text (document 01, "The
// printed plan").
#![tactic(auto)]

ghost use Rattle.std.specs.Prelude.{◌≡◌};
ghost use Rattle.filling.specs.Rooms.{lent_of};
ghost use Rattle.plan_text.specs.Told.{text_reply_of};

use index::{Bucket, Entry};
use lines::Text;

// The plan of the job that the bytes are, or its refusal, as text in a buffer of at least 589,824
// bytes: where the text ends. A shorter buffer: 0, and nothing is written anywhere.
pub fn plan_text(
    bytes: &[u8],
    shapes: &mut [f64],
    sheet: &mut [f64],
    placed: &mut [f64],
    sheet_entries: &mut [Entry],
    placed_entries: &mut [Entry],
    sheet_firsts: &mut [Bucket],
    placed_firsts: &mut [Bucket],
    intervals: &mut [f64],
    positions: &mut [f64],
    out: &mut [u8],
) -> usize
    ensures { record {
      end = result;
      out = out.new;
      lent = lent_of shapes.new sheet.new placed.new sheet_entries.new placed_entries.new
          sheet_firsts.new placed_firsts.new intervals.new positions.new;
    } ≡ text_reply_of bytes.now out.old (lent_of shapes.old sheet.old placed.old
        sheet_entries.old placed_entries.old sheet_firsts.old placed_firsts.old
        intervals.old positions.old) }
{
    if out.len() < 589824 {
        return 0;
    }
    let r = nest::nest(
        bytes,
        shapes,
        sheet,
        placed,
        sheet_entries,
        placed_entries,
        sheet_firsts,
        placed_firsts,
        intervals,
        positions,
    );
    let mut told = Text::new(out);
    text::printed::print_reply(bytes, r.verdict, r.plan, positions, &mut told);
    told.finish()
}
