// Replays sets of loops: for each set of the input its strips and its bounds in a frame, by their
// bits. A set is a head of 132 bytes (1 for the sheet, plus twice the corner, plus 8 along x; number
// of loops; number of points in two bytes; then two bytes for the end of each of 64 loops), then each
// point's x and y by their bits, 16 bytes. The stored answers are those of the lifted Rust
// (oracle/samples/strips.py), never of this code.
#![tactic(auto)]

ghost use Rattle.std.specs.Prelude.{◌≡◌, true, ◌*◌, ◌≤◌, ◌<◌, length, take};
ghost use Rattle.strips.specs.inner.Tables.{Loops};

use frames::Frame;

// The next coordinates of the input; 0 for one whose bits are no finite double's.
fn read_coordinates(to: &mut [f64]) {
    for x in to {
        let mut bits = [0u8; 8];
        io::read_full(0, &mut bits);
        *x = numbers::from_bits(u64::from_be_bytes(bits)).unwrap_or(0.0);
    }
}

// Whether the loops lie in n points.
fn loops_lie(ends: &[u16], n: usize) -> bool
    ensures { result ≡ true → Loops 0 ends.now n }
{
    let mut first: usize = 0;
    for x in ends {
        let end = usize::from(*x);
        if end < first || n < end {
            return false;
        }
        first = end;
    }
    first == n
}

// A line of a word and numbers.
fn show(word: &[u8], numbers: &[f64]) {
    io::write_all(1, word);
    for x in numbers {
        io::write_all(1, b" ");
        io::print_hex(1, numbers::bits_of(*x), 16);
    }
    io::write_all(1, b"\n");
}

fn show_strip(s: trapezoid::Trapezoid) {
    show(b"strip", &[s.x0, s.x1, s.low0, s.low1, s.high0, s.high1]);
}

fn show_bounds(b: strips::Rect) {
    show(b"bounds", &[b.left, b.bottom, b.right, b.top]);
}

// The first n strips of the room.
fn show_strips(room: &[f64], n: usize) {
    for i in 0..n.min(room.len() / 6) {
        show_strip(trapezoid::load(room, i));
    }
}

// The strips and bounds of one set, in tables that hold ones before.
fn replay(points: &[f64], n: usize, ends: &[u16], sheet: bool)
    requires { (0 < n) × (n ≤ 512) × (2 * n ≤ length points.now) × Loops 0 ends.now n }
{
    let mut es = [1.0f64; 3072];
    let mut rows = [1.0f64; 1536];
    let mut line = [1.0f64; 514];
    let mut room = [1.0f64; 98304];
    let stored = strips::trapezoids(
        points, n, ends, sheet, &mut es, &mut rows, &mut line, &mut room, 0,
    );
    match stored {
        Some(m) => show_strips(&room, m),
        None => show(b"no 20", &[]),
    }
    show_bounds(strips::bounds(points, n));
}

// The loop ends, as `frames` takes them.
fn lengthen(ends: &[u16], long: &mut [usize])
    requires { length ends.now ≤ length long.old }
    ensures { take (length ends.now) long.new ≡ ends.now }
{
    for i in 0..ends.len() {
        long[i] = usize::from(ends[i]);
    }
}

// The points of a set go through the frame.
fn frame_points(f: Frame, points: &mut [f64], n: usize, ends: &[u16])
    requires { (2 * n ≤ length points.old) × (length ends.now ≤ 64) × Loops 0 ends.now n }
{
    let mut long = [0usize; 64];
    lengthen(ends, &mut long);
    frames::frame_set(f, points, n, &long[..ends.len()]);
}

// The strips and bounds of what may be a set, in the frame.
fn try_set(f: Frame, points: &mut [f64], n: usize, ends: &[u16], sheet: bool)
    requires { (n ≤ 512) × (2 * n ≤ length points.old) × (length ends.now ≤ 64) }
{
    if n > 0 && loops_lie(ends, n) {
        frame_points(f, points, n, ends);
        replay(points, n, ends, sheet);
    }
}

// The frame of a head's first byte.
fn frame_of(x: u8) -> Frame {
    let k = u64::from(x);
    Frame {
        corner: k / 2 % 4,
        axis: 1 - k / 8 % 2,
    }
}

// A head's number of loops or points, or 0 where it is too large.
fn at_most(n: usize, most: usize) -> usize
    ensures { result ≤ most }
{
    if n <= most { n } else { 0 }
}

// One set of the input; none where the input ends.
fn turn() -> Option<()> {
    let mut head = [0u8; 132];
    let mut points = [1.0f64; 1024];
    let mut ends = [1u16; 64];
    let got = io::read_full(0, &mut head);
    let loops = at_most(usize::from(head[1]), 64);
    let n = at_most(usize::from(u16::from_be_bytes([head[2], head[3]])), 512);
    read_coordinates(&mut points[..2 * n]);
    for (end, pair) in ends.iter_mut().zip(head[4..].as_chunks::<2>().0) {
        *end = u16::from_be_bytes(*pair);
    }
    let sheet = head[0] % 2 == 1;
    try_set(frame_of(head[0]), &mut points, n, &ends[..loops], sheet);
    // a head that is cut is the last one
    if got < 132 { None } else { Some(()) }
}

fn main() {
    for _ in 0..1000000 {
        if turn().is_none() {
            break;
        }
    }
}
