// Whether a place lies in the ranges of an orientation's columns (document 02, W6: "each x lies in its
// orientation's range or is one of its columns (a reversed range has neither), each y lies in its range").
ghost use Rattle.std.specs.Prelude.{◌≡◌, ◌≤◌};
ghost use Rattle.search.specs.columns.inner.Stands.{column_x};
ghost use Rattle.layouts.specs.Layouts.{among_columns};
ghost use Rattle.placement.specs.range.inner.Ranged.{within, in_range_of};

use search::columns::Columns;

// Whether v is one of the numbers from low to high, both included.
#[tactic(auto, unfolding(crate::specs::range::inner::Ranged::within))]
fn within(low: f64, high: f64, v: f64) -> bool
    ensures { result ≡ within low high v }
{
    low <= v && v <= high
}

// Whether one of the columns 0 to `last` stands at x: from the last on down.
fn among(k: Columns, last: usize, x: f64) -> bool
    requires { k.count ≤ 4000000000 }
    ensures { result ≡ among_columns (column_x k) last x }
{
    for c in (0..=last).rev() {
        if k.x(c) == x {
            return true;
        }
    }
    false
}

// Whether x, y lies in the ranges. The columns are walked for an x outside of its range alone: a column
// that passes x_high by rounding is the last, so that only a refused x meets them all.
pub fn in_range(k: Columns, x: f64, y: f64) -> bool
    requires { k.count ≤ 4000000000 }
    ensures { result ≡ in_range_of k x y }
{
    if k.reversed() || !within(k.y_low, k.y_high, y) {
        return false;
    }
    let last = k.last();
    within(k.x_low, k.x_high, x) || among(k, last, x)
}
