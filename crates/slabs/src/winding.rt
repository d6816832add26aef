// Winding (document 01, "Strips"): where strips run, and the strip that ends there.
ghost use Rattle.std.specs.Prelude.{◌≡◌, cond, ◌+◌, ◌-◌, ◌<◌, pos, ◌-ℤ◌};
ghost use Rattle.std.specs.Float.Ieee.{lt};
ghost use Rattle.slabs.specs.Slab.{strip, kept, piece, runs};
ghost use Rattle.slabs.specs.inner.Tables.{zero_bits, put, hold};

// Winding after d, counted from a base: one more or one less.
pub fn turned(w: usize, d: f64) -> usize
    requires { (0 < w) × (w < 0x8000_0000_0000_0000) }
    ensures { result ≡ cond (lt zero_bits d) (w + 1) (w - 1) }
{
    if d > 0.0 { w + 1 } else { w - 1 }
}

// Whether strips run at the winding w, counted from base.
pub fn runs(sheet: bool, base: usize, w: usize) -> bool
    ensures { result ≡ runs sheet (pos w -ℤ pos base) }
{
    if sheet { w <= base } else { base < w }
}

// The strip between a lower and an upper edge.
#[tactic(auto, unfolding(crate::specs::Slab::strip))]
pub fn strip(xa: f64, xb: f64, la: f64, lb: f64, ya: f64, yb: f64) -> trapezoid::Trapezoid
    ensures { result ≡ strip xa xb la lb ya yb }
{
    trapezoid::Trapezoid {
        x0: xa,
        x1: xb,
        low0: numbers::smaller(la, ya),
        low1: numbers::smaller(lb, yb),
        high0: numbers::larger(la, ya),
        high1: numbers::larger(lb, yb),
    }
}

// Whether the strip is kept.
#[tactic(auto, unfolding(crate::specs::Slab::kept))]
pub fn kept(s: trapezoid::Trapezoid) -> bool
    ensures { result ≡ kept s }
{
    s.low0 < s.high0 || s.low1 < s.high1
}

// The strip goes into the room as number n, if it fits; how many it then holds, or one more than fit:
// `Held` of specs/ counts so, and other crates read it.
pub fn put(room: &mut [f64], n: usize, s: trapezoid::Trapezoid) -> usize
    ensures { record { room = room.exit.now; count = result } ≡ put (record { room = room.entry.now; count = n }) s }
{
    let cap = trapezoid::capacity(room);
    if n < cap {
        trapezoid::store(room, n, s);
        n + 1
    } else {
        cap + 1
    }
}

// The strip is stored if it is closed and kept.
pub fn close(closed: bool, room: &mut [f64], n: usize, s: trapezoid::Trapezoid) -> usize
    ensures { record { room = room.exit.now; count = result } ≡ hold (record { room = room.entry.now; count = n }) (piece closed s) }
{
    if closed && kept(s) {
        put(room, n, s)
    } else {
        n
    }
}
