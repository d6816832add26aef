// Whether an order is a rearrangement of the job's copies (document 01, refusal 10).
ghost use Rattle.std.specs.Prelude.{◌≡◌, ℕ, ◌+◌, ◌*◌, ◌<◌, ◌≤◌, List, length, slice_index, Float};
ghost use Rattle.job.specs.Jobs.{Job};
ghost use Rattle.filling.specs.Order.{count_in, rearranged};
ghost use Rattle.accounts.specs.tables.inner.Tabled.{Tabled};
ghost use Rattle.accounts.specs.order.inner.Quantities.{in_quantity};

// How often each kind stands in the order; numbers past the table are no kinds.
fn count_kinds(order: &[usize], counts: &mut [usize])
    requires { (k : ℕ) → k < length counts.old → slice_index counts.old k ≡ 0 }
    ensures { (k : ℕ) → k < length counts.old → slice_index counts.new k ≡ count_in k order.now }
{
    for &k in order {
        if k < counts.len() {
            counts[k] += 1;
        }
    }
}

// Whether every kind is counted as often as its quantity.
fn in_quantity(counts: &[usize], rows: &[u64], kinds: usize) -> bool
    requires { (kinds ≤ length counts.now) × (4 * kinds ≤ length rows.now) }
    ensures { result ≡ in_quantity counts.now rows.now kinds 0 }
{
    for k in 0..kinds {
        if counts[k] as u64 != rows[4 * k] {
            return false;
        }
    }
    true
}

// Whether the order has as many copies as the job, and each kind as often. Only crates of ours
// call it: rows hold each kind's quantity, four numbers to a kind.
pub fn rearranged(order: &[usize], rows: &[u64], kinds: usize, copies: usize) -> bool
    requires { (kinds ≤ 64) × (256 ≤ length rows.now) }
    ensures { (j : Job) (areas : List Float) → Tabled j rows.now areas → length j.kinds ≡ kinds → j.copies ≡ copies
        → result ≡ rearranged j order.now }
{
    if order.len() != copies {
        return false;
    }
    let mut counts = [0; 64];
    count_kinds(order, &mut counts);
    in_quantity(&counts, rows, kinds)
}
