// Frames (document 02, W1): nesting.rs's Frame. A sheet point p is planned at `to` of it; a place in
// the frame lies at `from` of it on the sheet.
#![tactic(auto)]

ghost use Rattle.std.specs.Prelude.{◌≡◌, ◌+◌, ◌*◌, ◌≤◌, length, take};
ghost use Rattle.kinds.specs.sets.Sets.{a_set};
ghost use Rattle.kinds.specs.sets.inner.Answers.{set_read, set_fits};
ghost use Rattle.strips.specs.inner.Tables.{Loops};
ghost use Rattle.frames.specs.Frames.{from_right, from_top, along_x, turned, to, from, reversing, identity, framed};
ghost use Rattle.frames.specs.inner.Turning.{set_point, framed_pair, FramedLoop, framed_read};

// A start corner and a fill axis, by their numbers in nesting.rs's order: lower left, lower right,
// upper left, upper right; x, y. A job's bits and the definition `Frame` have these numbers.
#[derive(Clone, Copy)]
pub struct Frame {
    pub corner: u64,
    pub axis: u64,
}

#[derive(Clone, Copy)]
pub struct Point {
    pub x: f64,
    pub y: f64,
}

// x, or -x if it is so turned; never minus zero.
#[tactic(auto, unfolding(crate::specs::Frames::turned))]
fn signed(t: bool, x: f64) -> f64
    ensures { result ≡ turned t x }
{
    numbers::plus_zero(if t { -x } else { x })
}

impl Frame {
    // Whether it starts at a right corner.
    fn from_right(self) -> bool
        ensures { result ≡ from_right self }
    {
        self.corner % 2 == 1
    }

    // Whether it starts at an upper corner.
    fn from_top(self) -> bool
        ensures { result ≡ from_top self }
    {
        2 <= self.corner
    }

    // Whether copies stack along x.
    fn along_x(self) -> bool
        ensures { result ≡ along_x self }
    {
        self.axis == 0
    }

    // Whether a point's place in the frame is its own.
    fn identity(self) -> bool
        ensures { result ≡ identity self }
    {
        !self.along_x() && !self.from_right() && !self.from_top()
    }

    // Whether it turns a loop round.
    #[tactic(auto, unfolding(crate::specs::Frames::reversing))]
    fn reversing(self) -> bool
        ensures { result ≡ reversing self }
    {
        self.along_x() == (self.from_right() == self.from_top())
    }

    // Where a point of the sheet is planned.
    pub fn to(self, x: f64, y: f64) -> Point
        ensures { result ≡ to self (record { x = x; y = y }) }
    {
        let across = signed(self.from_right(), x);
        let up = signed(self.from_top(), y);
        if self.along_x() {
            Point { x: up, y: across }
        } else {
            Point { x: across, y: up }
        }
    }

    // Where on the sheet a place in the frame lies.
    #[tactic(auto, unfolding(crate::specs::Frames::from))]
    pub fn from(self, x: f64, y: f64) -> Point
        ensures { result ≡ from self (record { x = x; y = y }) }
    {
        let (across, up) = if self.along_x() { (y, x) } else { (x, y) };
        Point {
            x: signed(self.from_right(), across),
            y: signed(self.from_top(), up),
        }
    }
}

// The point p as point i.
fn put_point(points: &mut [f64], i: usize, p: Point)
    requires { 2 * i + 2 ≤ length points.old }
    ensures { points.new ≡ set_point points.old i p }
{
    let at = 2 * i;
    points[at] = p.x;
    points[at + 1] = p.y;
}

// Points i and j go through the frame, and change places if so told.
fn frame_pair(f: Frame, points: &mut [f64], i: usize, j: usize, exchanged: bool)
    requires { (2 * i + 2 ≤ length points.old) × (2 * j + 2 ≤ length points.old) }
    ensures { points.new ≡ framed_pair f points.old i j exchanged }
{
    // Which points come to i and to j.
    let (a, b) = if exchanged { (j, i) } else { (i, j) };
    let p = f.to(points[2 * a], points[2 * a + 1]);
    let q = f.to(points[2 * b], points[2 * b + 1]);
    put_point(points, i, p);
    put_point(points, j, q);
}

// The points of one loop, from `first` to before `end`, go through the frame, the last first where
// it reverses. A turn of the loop takes one point at each end.
fn frame_loop(f: Frame, points: &mut [f64], first: usize, end: usize)
    requires { 2 * end ≤ length points.old }
    ensures { FramedLoop f first end points.old points.new }
{
    let exchanged = f.reversing();
    let mut i = first;
    let mut j = end;
    while i < j {
        j -= 1;
        frame_pair(f, points, i, j, exchanged);
        i += 1;
    }
}

// The first m points, in loops that end so, go through the frame.
pub fn frame_set(f: Frame, points: &mut [f64], m: usize, ends: &[usize])
    requires { (2 * m ≤ length points.old) × Loops 0 ends.now m }
    ensures { take (2 * m) points.exit.now
        ≡ (framed f (record { points = take (2 * m) points.entry.now; ends = ends.now })).points }
{
    if f.identity() {
        return;
    }
    let mut first: usize = 0;
    for &end in ends {
        frame_loop(f, points, first, end);
        first = end;
    }
}

// The set at a bit position, in the frame, into the rooms (see kinds::sets::read_set).
pub fn read_set(
    f: Frame,
    bytes: &[u8],
    at: u32,
    room: &mut [f64],
    ends: &mut [usize],
) -> Result<(usize, usize, usize), bits::Refusal>
    requires { (1024 ≤ length room.old) × (64 ≤ length ends.old) }
    ensures { (framed_read f (a_set bytes.now at) ≡ set_read result room.new ends.new) × set_fits result (at + 66183) }
{
    let (n, m, q) = kinds::sets::read_set(bytes, at, room, ends)?;
    frame_set(f, room, m, &ends[..n]);
    Ok((n, m, q))
}
