// What the program `judge` does: reads a list of `put` lines and a job from standard input, and writes
// to standard output whether the layout is accepted (document 02, W6).
ghost use Rattle.std.specs.Prelude.{suc, ◌≡◌, length};
ghost use Rattle.judge_text.specs.Judging.{longest_input, judge_buffer};

// Every text fits the buffer.
const TEXT_BYTES: usize = 64;

// One byte more than the input may have, for 11.
const INPUT_BYTES: usize = 589825;

fn buffer() -> [u8; TEXT_BYTES]
    ensures { judge_buffer ≡ length result }
{
    [0; TEXT_BYTES]
}

fn input_room() -> [u8; INPUT_BYTES]
    ensures { suc longest_input ≡ length result }
{
    [0; INPUT_BYTES]
}

// The program's answer to these bytes.
pub fn print_judgement(bytes: &[u8]) {
    let mut out = buffer();
    let n = crate::judge_text(bytes, &mut out);
    program::print_plan::write_from(&out, n);
}

// The program's answer to its standard input.
pub fn read_and_print() {
    let mut room = input_room();
    let n = io::read_full(0, &mut room);
    print_judgement(&room[..n]);
}
