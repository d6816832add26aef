// The columns of one orientation (document 01, "Filling"): its ranges, where each column stands,
// the last one, and where a search starts.
ghost use Rattle.std.specs.Prelude.{◌≡◌, ◌≤◌};
ghost use Rattle.search.specs.columns.inner.Stands.{columns_of, reversed_of, regular_of, column_x, last_of, start_of};

use strips::Rect;

// Column c, 0 to count, stands at x_low + c * resolution, column count + 1 at x_high.
#[derive(Clone, Copy)]
pub struct Columns {
    pub x_low: f64,
    pub x_high: f64,
    pub y_low: f64,
    pub y_high: f64,
    pub resolution: f64,
    pub count: usize,
}

impl Columns {
    // The columns on a sheet with bounds s of an orientation with inset bounds b.
    #[tactic(auto, unfolding(crate::specs::columns::inner::Stands::columns_of))]
    pub fn new(s: Rect, b: Rect, resolution: f64) -> Columns
        ensures { result ≡ columns_of s b resolution }
    {
        let x_low = s.left - b.left;
        let x_high = s.right - b.right;
        let count = numbers::floor((x_high - x_low) / resolution) as usize;
        Columns {
            x_low,
            x_high,
            y_low: s.bottom - b.bottom,
            y_high: s.top - b.top,
            resolution,
            count,
        }
    }

    // Whether a range is reversed: then there is no look.
    #[tactic(auto, unfolding(crate::specs::columns::inner::Stands::reversed_of))]
    pub fn reversed(self) -> bool
        ensures { result ≡ reversed_of self }
    {
        self.x_high < self.x_low || self.y_high < self.y_low
    }

    #[tactic(auto, unfolding(crate::specs::columns::inner::Stands::regular_of))]
    fn regular(self, c: usize) -> f64
        requires { c ≤ 4000000000 }
        ensures { result ≡ regular_of self c }
    {
        self.x_low + (c as u32) as f64 * self.resolution
    }

    // The x of column c.
    #[tactic(auto, unfolding(crate::specs::columns::inner::Stands::column_x))]
    pub fn x(self, c: usize) -> f64
        requires { self.count ≤ 4000000000 }
        ensures { result ≡ column_x self c }
    {
        let x = if c <= self.count {
            self.regular(c)
        } else {
            self.x_high
        };
        numbers::plus_zero(x)
    }

    // The last column: the extra one only if the one before it stands short of x_high.
    #[tactic(auto, unfolding(crate::specs::columns::inner::Stands::last_of))]
    pub fn last(self) -> usize
        requires { self.count ≤ 4000000000 }
        ensures { (result ≡ last_of self) × (result ≤ 4000000001) }
    {
        if self.regular(self.count) < self.x_high {
            self.count + 1
        } else {
            self.count
        }
    }

    // The column at which a search starts, past the last where there is no look: `next` is 0 for
    // none, or one more than the remembered column.
    #[tactic(auto, unfolding(crate::specs::columns::inner::Stands::start_of, crate::specs::columns::inner::Stands::start_from))]
    pub fn start(self, last: usize, next: usize) -> usize
        requires { last ≤ 4000000001 }
        ensures { result ≡ start_of self last next }
    {
        if self.reversed() || next == 0 {
            last + 1
        } else {
            next - 1
        }
    }
}
