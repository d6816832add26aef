// The text that the program `plan` prints for its input (document 01, "The printed plan"): `no 11` for a
// job of more than 65,536 bytes, else its plan, or its refusal, in the rooms that the program lends.
#![tactic(auto)]

pub mod print_plan;

ghost use Rattle.std.specs.Prelude.{◌+◌, ◌*◌, ◌<◌, ◌≡◌, length, map};
ghost use Rattle.nesting.specs.Text.{decimal, line};
ghost use Rattle.plan_text.specs.Program.{strip_room, entry_room, first_room, interval_room, position_room, text_in, program_answer};

use index::{Bucket, Entry};
use lines::Text;

// 1,365 strips, six numbers to a strip.
const STRIP_SLOTS: usize = 8190;

// 16,384 entries.
const ENTRY_SLOTS: usize = 16384;

// 1,365 strips, one bucket number to a strip.
const FIRST_SLOTS: usize = 1365;

// 4,096 intervals, two numbers to an interval.
const INTERVAL_SLOTS: usize = 8192;

// 4,096 positions, six numbers to a position.
const POSITION_SLOTS: usize = 24576;

pub fn strip_room() -> [f64; STRIP_SLOTS]
    ensures { result ≡ strip_room }
{
    [0.0; STRIP_SLOTS]
}

pub fn entry_room() -> [Entry; ENTRY_SLOTS]
    ensures { result ≡ entry_room }
{
    [0; ENTRY_SLOTS]
}

pub fn first_room() -> [Bucket; FIRST_SLOTS]
    ensures { result ≡ first_room }
{
    [0; FIRST_SLOTS]
}

fn interval_room() -> [f64; INTERVAL_SLOTS]
    ensures { result ≡ interval_room }
{
    [0.0; INTERVAL_SLOTS]
}

fn position_room() -> [f64; POSITION_SLOTS]
    ensures { result ≡ position_room }
{
    [0.0; POSITION_SLOTS]
}

// A line's text, a word and counts, and zeros after it: where it ends.
pub fn line_text(out: &mut [u8], word: &[u8], counts: &[usize]) -> usize
    requires { length word.now + 21 * length counts.now < length out.old }
    ensures { record { end = result; out = out.new } ≡ text_in (line word.now (map decimal counts.now)) out.old }
{
    let mut text = Text::new(out);
    text.line(word, counts, &[]);
    text.finish()
}

// The program's text for these bytes, in a buffer of at least 589,824 bytes: where it ends, with zeros
// after it. A shorter buffer: 0, and nothing is written.
pub fn program_text(bytes: &[u8], out: &mut [u8]) -> usize
    ensures { record { end = result; out = out.new } ≡ program_answer bytes.now out.old }
{
    if out.len() < 589824 {
        return 0;
    }
    if 65536 < bytes.len() {
        return line_text(out, b"no", &[11]);
    }
    let mut shapes = strip_room();
    let mut sheet = strip_room();
    let mut placed = strip_room();
    let mut sheet_entries = entry_room();
    let mut placed_entries = entry_room();
    let mut sheet_firsts = first_room();
    let mut placed_firsts = first_room();
    let mut intervals = interval_room();
    let mut positions = position_room();
    plan_text::plan_text(
        bytes,
        &mut shapes,
        &mut sheet,
        &mut placed,
        &mut sheet_entries,
        &mut placed_entries,
        &mut sheet_firsts,
        &mut placed_firsts,
        &mut intervals,
        &mut positions,
        out,
    )
}
