// The strips and the bounds of a job's set in the job's frame, read from the job's bytes. Only crates
// of ours call these functions, so they may require that the work tables are long enough.
ghost use Rattle.std.specs.Prelude.{◌≡◌, ℕ, ◌+◌, ◌*◌, ◌≤◌, ◌<◌, length, get_or, take};
ghost use Rattle.filling.specs.Shapes.{set_bounds};
ghost use Rattle.shapes.specs.set_strips.inner.SetStrips.{strips_at};
ghost use Rattle.strips.specs.inner.Tables.{Stowed, strips_stored};
ghost use Rattle.frames.specs.Frames.{framed};
ghost use Rattle.kinds.specs.sets.inner.Answers.{set_at};

use frames::Frame;
use strips::Rect;

// Tables of work for a set of 512 points and 64 loops: its points and the ends of its loops as they
// are read, the ends as `strips` takes them, its edges, the crossings of a slab, the sorted x's.
#[derive(Drop)]
pub struct Scratch {
    pub points: [f64; 1024],
    pub ends: [usize; 64],
    pub short: [u16; 64],
    pub es: [f64; 3072],
    pub crossings: [f64; 1536],
    pub line: [f64; 514],
}

impl Scratch {
    pub fn new() -> Scratch {
        Scratch {
            points: [0.0; 1024],
            ends: [0; 64],
            short: [0; 64],
            es: [0.0; 3072],
            crossings: [0.0; 1536],
            line: [0.0; 514],
        }
    }
}

// The first n loop ends, as `strips` takes them.
fn shorten(ends: &[usize], n: usize, short: &mut [u16])
    requires { (n ≤ length ends.now) × (n ≤ length short.old) × ((i : ℕ) → i < n → get_or ends.now i 0 ≤ 512) }
    ensures { take n short.new ≡ take n ends.now }
{
    for i in 0..n {
        short[i] = ends[i] as u16;
    }
}

// The strips of the set at a bit position go into the room from strip `from` on; a position without
// a set has none.
pub fn set_strips(
    bytes: &[u8],
    at: u32,
    sheet: bool,
    scratch: &mut Scratch,
    room: &mut [f64],
    from: usize,
    f: Frame,
) -> Option<usize>
    requires { 6 * from ≤ length room.old }
    ensures { record { answer = result; room = room.new } ≡ strips_stored (strips_at f bytes.now at sheet) room.old from }
{
    let Ok((n, m, _)) = frames::read_set(f, bytes, at, &mut scratch.points, &mut scratch.ends)
    else {
        return Some(0);
    };
    shorten(&scratch.ends, n, &mut scratch.short);
    let end = 2 * m;
    strips::trapezoids(
        &scratch.points[..end],
        m,
        &scratch.short[..n],
        sheet,
        &mut scratch.es,
        &mut scratch.crossings,
        &mut scratch.line,
        room,
        from,
    )
}

// The bounds of the set at a bit position; NaN where there is no set.
pub fn set_bounds(bytes: &[u8], at: u32, scratch: &mut Scratch, f: Frame) -> Rect
    ensures { result ≡ set_bounds (framed f (set_at bytes.now at)) }
{
    let Ok((_, m, _)) = frames::read_set(f, bytes, at, &mut scratch.points, &mut scratch.ends)
    else {
        return Rect {
            left: f64::NAN,
            bottom: f64::NAN,
            right: f64::NAN,
            top: f64::NAN,
        };
    };
    let end = 2 * m;
    strips::bounds(&scratch.points[..end], m)
}
