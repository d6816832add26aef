// The commands of a script: a letter, a byte, four bytes and eight bytes, most significant first;
// after some of them so many bytes more.
use crate::lend;

// What a command's letter says.
#[derive(Clone, Copy, Debug, PartialEq, Eq)]
pub enum Step {
    Job,
    Order,
    Length,
    Title,
    Spoil,
    Set,
    Print,
    Hash,
    Edit,
    Leaf,
    Start,
    Fill,
    Next,
    Stack,
    Withdraw,
    // No command has the letter: nothing is done.
    Nothing,
}

impl From<u8> for Step {
    fn from(letter: u8) -> Step {
        match letter {
            b'J' => Step::Job,
            b'O' => Step::Order,
            b'L' => Step::Length,
            b'T' => Step::Title,
            b'H' => Step::Spoil,
            b'R' => Step::Set,
            b'P' => Step::Print,
            b'V' => Step::Hash,
            b'E' => Step::Edit,
            b'K' => Step::Leaf,
            b'S' => Step::Start,
            b'F' => Step::Fill,
            b'N' => Step::Next,
            b'M' => Step::Stack,
            b'W' => Step::Withdraw,
            _ => Step::Nothing,
        }
    }
}

#[derive(Clone, Copy)]
pub struct Command {
    pub step: Step,
    pub a: usize,
    pub n: usize,
    pub m: u64,
}

// The next command; none where the script ends.
pub fn next() -> Option<Command> {
    let mut b = [0u8; 14];
    if io::read_full(0, &mut b) < 14 || b[0] == 0 {
        return None;
    }
    Some(Command {
        step: Step::from(b[0]),
        a: usize::from(b[1]),
        n: u32::from_be_bytes([b[2], b[3], b[4], b[5]]) as usize,
        m: u64::from_be_bytes([b[6], b[7], b[8], b[9], b[10], b[11], b[12], b[13]]),
    })
}

// The next n bytes, or as many as there are; none where they do not fit.
fn read_part(room: &mut [u8], n: usize) -> &[u8] {
    let Some(part) = room.get_mut(..n) else {
        return &[];
    };
    let got = io::read_full(0, part);
    lend::lent(part, got)
}

// A line of text, printed as it is.
pub fn read_title(n: usize) {
    let mut text = [0u8; 256];
    io::write_all(1, read_part(&mut text, n));
    io::write_all(1, b"\n");
}

// Reads a job; how many bytes there were, none where they do not fit.
pub fn read_job(n: usize, bytes: &mut [u8]) -> usize {
    read_part(bytes, n).len()
}

// Reads an order, its numbers of two bytes each; how many there were, none where they do not fit.
pub fn read_order(n: usize, order: &mut [usize]) -> usize {
    let mut text = [0u8; 8200];
    if n > 4100 {
        return 0;
    }
    let got = read_part(&mut text, 2 * n).len();
    for (k, pair) in order.iter_mut().zip(text.as_chunks::<2>().0) {
        *k = usize::from(u16::from_be_bytes(*pair));
    }
    got / 2
}
