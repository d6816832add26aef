// Whether a place lies in its ranges, and clear of what stands (document 02, W6, "Layouts from the
// bureau"): the forbidden intervals are met one after another, and none is kept.
#![tactic(auto)]

pub mod range;

ghost use Rattle.std.specs.Prelude.{◌≡◌};
ghost use Rattle.index.specs.Intervals.{forbidden_of};
ghost use Rattle.index.specs.inner.Listing.{meeting_at};
ghost use Rattle.look.specs.height.Smallest.{inside, outside};
ghost use Rattle.placement.specs.inner.Pairs.{lies_in, intervals_of};

use index::{Interval, Moving};
use trapezoid::Trapezoid;

// Whether y lies in an open interval: neither end does.
#[tactic(auto, unfolding(look::specs::height::Smallest::inside))]
fn inside(i: Interval, y: f64) -> bool
    ensures { result ≡ inside y i }
{
    i.from < y && y < i.to
}

// Whether y lies in the forbidden interval of one pair.
#[tactic(auto, unfolding(crate::specs::inner::Pairs::lies_in))]
fn in_the_way(m: Moving, p: Trapezoid, y: f64) -> bool
    ensures { result ≡ lies_in y (meeting_at m p) }
{
    match index::forbidden(m, p) {
        Some(i) => inside(i, y),
        None => false,
    }
}

// Whether y lies in no forbidden interval of a moving strip against the standing strips.
fn clear_of(m: Moving, standing: &[f64], y: f64) -> bool
    ensures { result ≡ outside (intervals_of standing.now m) y }
{
    let count = trapezoid::capacity(standing);
    for i in 0..count {
        let p = trapezoid::load(standing, i);
        if in_the_way(m, p, y) {
            return false;
        }
    }
    true
}

// Whether y lies in no forbidden interval of the moving strips at x against the standing strips.
pub fn clear(moving: &[f64], standing: &[f64], x: f64, y: f64) -> bool
    ensures { result ≡ outside (forbidden_of standing.now moving.now x) y }
{
    let count = trapezoid::capacity(moving);
    for j in 0..count {
        let q = trapezoid::load(moving, j);
        let m = Moving::new(q, x, y, y);
        if !clear_of(m, standing, y) {
            return false;
        }
    }
    true
}
