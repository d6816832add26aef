// The text that the program `judge` prints for its input (document 02, W6): a list of `put` lines and a
// job right after it, judged in the rooms that `plan` lends.
#![tactic(auto)]

pub mod print_judgement;

ghost use Rattle.std.specs.Prelude.{◌≤◌, ◌≡◌, length};
ghost use Rattle.plan_text.specs.Program.{text_in};
ghost use Rattle.judge_text.specs.Judging.{no_line, verdict_line, job_line, judge_answer};
ghost use Rattle.judge_text.specs.inner.Room.{number_room};

use put_lines::ListError;

// 4,096 lines, four numbers to a line.
const NUMBER_SLOTS: usize = 16384;

fn number_room() -> [u64; NUMBER_SLOTS]
    ensures { result ≡ number_room }
{
    [0; NUMBER_SLOTS]
}

// `no`, the number and the line, zeros after it.
fn no_line(out: &mut [u8], number: usize, n: usize) -> usize
    requires { 64 ≤ length out.old }
    ensures { record { end = result; out = out.new } ≡ text_in (no_line number n) out.old }
{
    program::line_text(out, b"no", &[number, n])
}

// The text of a verdict of line n, or of all n lines.
fn verdict_line(out: &mut [u8], verdict: Result<(), filling::Refusal>, n: usize) -> usize
    requires { 64 ≤ length out.old }
    ensures { record { end = result; out = out.new } ≡ text_in (verdict_line verdict n) out.old }
{
    match verdict {
        Ok(()) => program::line_text(out, b"accepted", &[n]),
        Err(k) => {
            let number = accounts::verdicts::refusal_number(k) as usize;
            no_line(out, number, n)
        }
    }
}

// The text for a job and a list's numbers.
fn job_line(bytes: &[u8], given: &[u64], out: &mut [u8]) -> usize
    requires { 64 ≤ length out.old }
    ensures { record { end = result; out = out.new } ≡ text_in (job_line bytes.now given.now) out.old }
{
    if 65536 < bytes.len() {
        return no_line(out, 11, 0);
    }
    let mut shapes = program::strip_room();
    let mut sheet = program::strip_room();
    let mut placed = program::strip_room();
    let mut sheet_entries = program::entry_room();
    let mut placed_entries = program::entry_room();
    let mut sheet_firsts = program::first_room();
    let mut placed_firsts = program::first_room();
    let r = judge_layout::judge_layout(
        bytes,
        given,
        &mut shapes,
        &mut sheet,
        &mut placed,
        &mut sheet_entries,
        &mut placed_entries,
        &mut sheet_firsts,
        &mut placed_firsts,
    );
    verdict_line(out, r.verdict, r.line)
}

// The text for a list of `put` lines and a job right after it, in a buffer of at least 64 bytes: where
// it ends, with zeros after it. A shorter buffer: 0, and nothing is written.
pub fn judge_text(bytes: &[u8], out: &mut [u8]) -> usize
    ensures { record { end = result; out = out.new } ≡ judge_answer bytes.now out.old }
{
    if out.len() < 64 {
        return 0;
    }
    if 589824 < bytes.len() {
        return no_line(out, 11, 0);
    }
    let mut numbers = number_room();
    match put_lines::read(bytes, &mut numbers) {
        Ok((n, at)) => job_line(&bytes[at..], &numbers[..4 * n], out),
        Err(ListError::Malformed(n)) => no_line(out, 15, n),
        Err(ListError::TooMany) => no_line(out, 7, 4096),
    }
}
