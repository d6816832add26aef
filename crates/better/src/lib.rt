// The parts of a round (document 01, "Order and swaps"): two copies are drawn, and swapped where their
// kinds may be; the better of two fillings is kept.
#![tactic(auto)]

pub mod round_laws;

ghost use Rattle.std.specs.Prelude.{Ok, ◌≡◌, ◌⊎◌, not, ◌&&◌, ◌||◌, List, ℕ, ◌+◌, ◌-◌, ◌*◌, ◌%◌, ◌≤◌, ◌<◌, ◌^◌, length, get_or, Float};
ghost use Rattle.std.specs.Float.Ieee.{lt, eq};
ghost use Rattle.random.specs.SplitMix64.{next_state, mixed};
ghost use Rattle.kinds.specs.Kinds.{lower, signed};
ghost use Rattle.job.specs.Jobs.{Job};
ghost use Rattle.filling.specs.Shapes.{Planner};
ghost use Rattle.accounts.specs.tables.inner.Tabled.{Tabled};
ghost use Rattle.rooms.specs.tracks.inner.Tracks.{track_numbers, spot_numbers};
ghost use Rattle.nesting.specs.Rounds.{kept, swappable, swapped, judged};
ghost use Rattle.filling_laws.specs.fill_laws.inner.Prepared.{filling_in};
ghost use Rattle.better.specs.inner.Keeping.{half, kept_in};
ghost use Rattle.better.specs.inner.Turns.{Drew};

use place::Totals;

// A place among n copies: the next draw modulo their number.
pub fn draw(random: &mut u64, n: usize) -> usize
    requires { 0 < n }
    ensures { (random.new ≡ next_state random.old) × (result ≡ mixed (next_state random.old) % n) × (result < n) }
{
    let z = random::next_random(random);
    (z % (n as u64)) as usize
}

// Whether two kinds have one priority.
fn same_priority(rows: &[u64], a: usize, b: usize) -> bool
    requires { (4 * a + 4 ≤ length rows.now) × (4 * b + 4 ≤ length rows.now) }
    ensures { result ≡ (not (lower (signed (get_or rows.now (4 * a + 2) 0)) (signed (get_or rows.now (4 * b + 2) 0)))
        && not (lower (signed (get_or rows.now (4 * b + 2) 0)) (signed (get_or rows.now (4 * a + 2) 0)))) }
{
    !copy_order::lower_at(rows, a, b) && !copy_order::lower_at(rows, b, a)
}

// Whether copies of the kinds a and b may be swapped.
pub fn swappable(rows: &[u64], a: usize, b: usize) -> bool
    requires { (4 * a + 4 ≤ length rows.now) × (4 * b + 4 ≤ length rows.now) }
    ensures { (j : Job) (areas : List Float) → Tabled j rows.now areas → a < length j.kinds → b < length j.kinds
        → result ≡ swappable j.kinds a b }
{
    let fill_a = rows[4 * a + 1] == 1;
    let fill_b = rows[4 * b + 1] == 1;
    a != b && fill_a == fill_b && same_priority(rows, a, b)
}

// Two copies are drawn, and swapped where they may be: their places. Else the round ends, both draws
// spent.
pub fn draw_swap(random: &mut u64, rows: &[u64], order: &mut [usize]) -> Option<(usize, usize)>
    requires { (0 < length order.old) × (256 ≤ length rows.now) × ((q : ℕ) → q < length order.old → get_or order.old q 0 < 64) }
    ensures { Drew random.old rows.now order.old result random.new order.new }
{
    let n = order.len();
    let i = draw(random, n);
    let k = draw(random, n);
    if !swappable(rows, order[i], order[k]) {
        return None;
    }
    order.swap(i, k);
    Some((i, k))
}

// Whether a has a smaller unplaced area than b, or equal area and a smaller right.
fn better_than(a: Totals, b: Totals) -> bool
    ensures { result ≡ (lt a.unplaced_area b.unplaced_area || eq a.unplaced_area b.unplaced_area && lt a.right b.right) }
{
    a.unplaced_area < b.unplaced_area || (a.unplaced_area == b.unplaced_area && a.right < b.right)
}

// What is kept beside the tables: the state of the draws, the totals, the improvements, and which half
// of the tables has the filling.
#[derive(Clone, Copy)]
pub struct Best {
    pub random: u64,
    pub totals: Totals,
    pub improvements: usize,
    pub kept: usize,
}

// The filling of a round lies in the half that is not kept: it is kept if it is better; else the copies
// at places i and k are swapped back.
pub fn judge(t: Totals, b: Best, i: usize, k: usize, order: &mut [usize]) -> Best
    requires { (b.improvements + 1 < 2 ^ 64) × (b.kept ≤ 1) × (i < length order.old) × (k < length order.old) }
    ensures { ((p : Planner) (tracks : List ℕ) (spots : List Float) → kept (kept_in result p order.new tracks spots)
        ≡ judged b.random order.old (kept_in b p (swapped i k order.old) tracks spots)
        (filling_in (Ok tt) p order.old (half track_numbers (1 - b.kept) tracks) t (half spot_numbers (1 - b.kept) spots)))
        × ((order.new ≡ order.old) ⊎ (order.new ≡ swapped i k order.old))
        × (result.improvements ≤ b.improvements + 1) × (result.kept ≤ 1) }
{
    if better_than(t, b.totals) {
        return Best {
            totals: t,
            improvements: b.improvements + 1,
            kept: 1 - b.kept,
            ..b
        };
    }
    order.swap(i, k);
    b
}
