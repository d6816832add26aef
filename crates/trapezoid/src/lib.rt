// The strip: nesting.rs's Trapezoid, its heights at an x, its move, and how strips lie in a lent
// room, six slots each. Everything that loads or stores a strip goes through `load` and `store`.
#![tactic(auto)]

ghost use Rattle.std.specs.Prelude.{◌≡◌, cond, ◌+◌, ◌*◌, ◌≤◌, length};
ghost use Rattle.trapezoid.specs.Strip.{strip_at, capacity, heights_at, moved_by, part_of};
ghost use Rattle.trapezoid.specs.inner.Writing.{set_strip};

// A strip (document 01): between x0 and x1, from the low side to the high side, each given by its
// height at x0 and at x1.
#[derive(Clone, Copy, PartialEq)]
pub struct Trapezoid {
    pub x0: f64,
    pub x1: f64,
    pub low0: f64,
    pub low1: f64,
    pub high0: f64,
    pub high1: f64,
}

// The heights of a strip's two sides at one x.
#[derive(Clone, Copy)]
pub struct Heights {
    pub low: f64,
    pub high: f64,
}

// How many strips a room holds.
#[tactic(auto, unfolding(crate::specs::Strip::capacity))]
pub fn capacity(room: &[f64]) -> usize
    ensures { result ≡ capacity room.now }
{
    room.len() / 6
}

// The strip number i of a room. Only crates of ours call it: the strip must lie in the room.
#[tactic(auto, unfolding(crate::specs::Strip::strip_at))]
pub fn load(room: &[f64], i: usize) -> Trapezoid
    requires { 6 * i + 6 ≤ length room.now }
    ensures { result ≡ strip_at room.now i }
{
    let at = 6 * i;
    Trapezoid {
        x0: room[at],
        x1: room[at + 1],
        low0: room[at + 2],
        low1: room[at + 3],
        high0: room[at + 4],
        high1: room[at + 5],
    }
}

// The strip s as number i of a room. Only crates of ours call it: the strip must lie in the room.
#[tactic(auto, unfolding(crate::specs::inner::Writing::set_strip))]
pub fn store(room: &mut [f64], i: usize, s: Trapezoid)
    requires { 6 * i + 6 ≤ length room.old }
    ensures { room.new ≡ set_strip room.old i s }
{
    let at = 6 * i;
    room[at] = s.x0;
    room[at + 1] = s.x1;
    room[at + 2] = s.low0;
    room[at + 3] = s.low1;
    room[at + 4] = s.high0;
    room[at + 5] = s.high1;
}

impl Trapezoid {
    // The heights of both sides at x.
    #[tactic(auto, unfolding(crate::specs::Strip::heights_at))]
    pub fn at(self, x: f64) -> Heights
        ensures { result ≡ heights_at self x }
    {
        if x <= self.x0 {
            return Heights {
                low: self.low0,
                high: self.high0,
            };
        }
        if x >= self.x1 {
            return Heights {
                low: self.low1,
                high: self.high1,
            };
        }
        let t = (x - self.x0) / (self.x1 - self.x0);
        Heights {
            low: self.low0 + t * (self.low1 - self.low0),
            high: self.high0 + t * (self.high1 - self.high0),
        }
    }

    // The strip moved by x and y.
    #[tactic(auto, unfolding(crate::specs::Strip::moved_by))]
    pub fn moved(self, x: f64, y: f64) -> Trapezoid
        ensures { result ≡ moved_by self x y }
    {
        Trapezoid {
            x0: self.x0 + x,
            x1: self.x1 + x,
            low0: self.low0 + y,
            low1: self.low1 + y,
            high0: self.high0 + y,
            high1: self.high1 + y,
        }
    }
}

// Of a room, `count` strips from strip `from` on; an empty part where the room ends before.
#[tactic(auto, unfolding(crate::specs::Strip::part_of, crate::specs::Strip::capacity))]
pub fn part_of<'a>(room: &'a [f64], from: usize, count: usize) -> &'a [f64]
    ensures { result.now ≡ part_of room.now from count }
{
    let held = capacity(room);
    if held < from || held - from < count {
        return &[];
    }
    let start = 6 * from;
    &room[start..start + 6 * count]
}

// The inset strips or the apart strips of one orientation: `count` of them from strip `from` on.
pub fn strips_of<'a>(
    apart: &'a [f64],
    inset: &'a [f64],
    is_inset: bool,
    from: usize,
    count: usize,
) -> &'a [f64]
    ensures { result.now ≡ part_of (cond is_inset inset.now apart.now) from count }
{
    part_of(if is_inset { inset } else { apart }, from, count)
}
