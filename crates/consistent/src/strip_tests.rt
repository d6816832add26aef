// What refusal 31 (document 01) asks of a state's numbers and strips: one test a function. Bounds and
// a resolution that pass are also told to be of a bounded size.
ghost use Rattle.std.specs.Prelude.{◌≡◌, true, ◌≤◌, length};
ghost use Rattle.index.specs.inner.Listing.{Bounded};
ghost use Rattle.search.proofs.columns.Sizes.{BoundedRect, Resolving};
ghost use Rattle.consistent.specs.strip_tests.inner.Heights.{heights_fit};
ghost use Rattle.consistent.specs.strip_tests.inner.Gaps.{place_test, gaps_test};
ghost use Rattle.filling.specs.Consistent.{bounded, strip_fits, strips_fit, bounds_fit, resolution_fits, layout_fits, gap_fits};

use strips::Rect;
use trapezoid::Trapezoid;

// Finite and within ±1,000,000.
pub fn bounded(x: f64) -> bool
    ensures { (result ≡ bounded x) × (result ≡ true → Bounded 1000000 x) }
{
    x >= -1000000.0 && x <= 1000000.0
}

// The four bounds.
#[tactic(auto, unfolding(filling::specs::Consistent::bounds_fit))]
pub fn bounds_fit(b: Rect) -> bool
    ensures { (result ≡ bounds_fit b) × (result ≡ true → BoundedRect b) }
{
    bounded(b.left) && bounded(b.bottom) && bounded(b.right) && bounded(b.top)
}

// The four heights of a strip.
#[tactic(auto, unfolding(crate::specs::strip_tests::inner::Heights::heights_fit))]
fn heights_fit(p: Trapezoid) -> bool
    ensures { result ≡ heights_fit p }
{
    bounded(p.low0) && bounded(p.low1) && bounded(p.high0) && bounded(p.high1)
}

// A strip: x0 not above x1, and its six numbers.
#[tactic(auto, unfolding(filling::specs::Consistent::strip_fits, crate::specs::strip_tests::inner::Heights::heights_fit))]
pub fn strip_fits(p: Trapezoid) -> bool
    ensures { result ≡ strip_fits p }
{
    !(p.x1 < p.x0) && bounded(p.x0) && bounded(p.x1) && heights_fit(p)
}

// Every strip of a part.
pub fn strips_fit(part: &[f64]) -> bool
    ensures { result ≡ strips_fit part.now }
{
    (0..trapezoid::capacity(part)).all(|i| strip_fits(trapezoid::load(part, i)))
}

// The resolution.
pub fn resolution_fits(x: f64) -> bool
    ensures { (result ≡ resolution_fits x) × (result ≡ true → Resolving x) }
{
    x >= 0.001 && x <= 10000.0
}

// Right, and the unplaced area: 0 to 1e16.
pub fn layout_fits(right: f64, area: f64) -> bool
    ensures { result ≡ layout_fits right area }
{
    bounded(right) && area >= 0.0 && area <= 10000000000000000.0
}

// A standing copy's gap (document 02, W7).
pub fn gap_fits(gap: f64) -> bool
    ensures { result ≡ gap_fits gap }
{
    gap >= 0.0 && gap <= 1000000.0
}

// The gap at a place, by the copy's number in the layout: one without a place has none.
#[tactic(auto, unfolding(crate::specs::strip_tests::inner::Gaps::place_test))]
fn place_fits(number: usize, gap: f64) -> bool
    ensures { result ≡ place_test number gap }
{
    number == 0 || gap_fits(gap)
}

// The gaps of the copies that stand among the first n (document 02, W7).
pub fn gaps_fit(orientation: &[usize], gap: &[f64], n: usize) -> bool
    requires { (n ≤ length orientation.now) × (n ≤ length gap.now) }
    ensures { result ≡ gaps_test orientation.now gap.now n }
{
    (0..n).all(|i| place_fits(orientation[i], gap[i]))
}
