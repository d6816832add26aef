// What the program `plan` does: reads a job from standard input and writes its plan to standard output, or
// `no` and the number of its refusal (document 01, "The printed plan").
ghost use Rattle.std.specs.Prelude.{suc, ◌≡◌, length};
ghost use Rattle.plan_text.specs.Told.{buffer_length};
ghost use Rattle.plan_text.specs.Program.{longest_job};

// Every plan's text fits the buffer.
const TEXT_BYTES: usize = 589824;

// One byte more than a job may have, for 11.
const INPUT_BYTES: usize = 65537;

// The `ensures` gives the length, which lending it needs.
pub fn buffer() -> [u8; TEXT_BYTES]
    ensures { buffer_length ≡ length result }
{
    [0; TEXT_BYTES]
}

fn input_room() -> [u8; INPUT_BYTES]
    ensures { suc longest_job ≡ length result }
{
    [0; INPUT_BYTES]
}

// Writes the first n bytes, if there are so many.
pub fn write_from(text: &[u8], n: usize) {
    if let Some(text) = text.get(..n) {
        io::write_all(1, text);
    }
}

// The program's answer to these bytes.
pub fn print_plan(bytes: &[u8]) {
    let mut out = buffer();
    let n = crate::program_text(bytes, &mut out);
    write_from(&out, n);
}

// The program's answer to its standard input.
pub fn read_and_print() {
    let mut room = input_room();
    let n = io::read_full(0, &mut room);
    print_plan(&room[..n]);
}
