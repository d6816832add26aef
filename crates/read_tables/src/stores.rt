// Doubles stored as far as a room goes. Called by this crate alone.
ghost use Rattle.std.specs.Prelude.{◌+◌, ◌≤◌, length, take};
ghost use Rattle.read_tables.specs.inner.Laying.{Stored};

// The first n doubles of a table.
pub fn put_doubles(out: &mut [f64], at: usize, table: &[f64], n: usize) -> usize
    requires { (n ≤ length table.now) × (n ≤ 1024) × (at ≤ 1000000000000) }
    ensures { Stored out.old at (take n table.now) out.new result × (result ≤ at + n) }
{
    for i in 0..n {
        bit_writer::store(out, at + i, table[i]);
    }
    at + n
}
