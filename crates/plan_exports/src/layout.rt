// A layout from elsewhere, judged (document 02, W6).
ghost use Rattle.std.specs.Prelude.{◌≡◌};
ghost use Rattle.filling.specs.Rooms.{rooms_of};
ghost use Rattle.plan_exports.specs.Lined.{lined_layout};

use index::{Bucket, Entry};

// The number of the refusal, or 0. The first place of `line` has the line that it speaks of: how many were accepted before it.
#[unsafe(no_mangle)]
pub extern "C" fn panel_layout(
    bytes: &[u8],
    given: &[u64],
    shapes: &mut [f64],
    sheet: &mut [f64],
    placed: &mut [f64],
    sheet_entries: &mut [Entry],
    placed_entries: &mut [Entry],
    sheet_firsts: &mut [Bucket],
    placed_firsts: &mut [Bucket],
    line: &mut [usize],
) -> u64
    ensures { record {
      number = result;
      line = line.new;
      rooms = rooms_of shapes.new sheet.new placed.new
          sheet_entries.new placed_entries.new sheet_firsts.new placed_firsts.new;
    }
        ≡ lined_layout bytes.now given.now line.old
        (rooms_of shapes.old sheet.old placed.old
        sheet_entries.old placed_entries.old sheet_firsts.old placed_firsts.old) }
{
    let r = judge_layout::judge_layout(
        bytes,
        given,
        shapes,
        sheet,
        placed,
        sheet_entries,
        placed_entries,
        sheet_firsts,
        placed_firsts,
    );
    if let Some(first) = line.first_mut() {
        *first = r.line;
    }
    accounts::verdicts::verdict_number(r.verdict)
}
