// The two tables that a filling lies in. Tracks: two numbers to a slot (next column, look count),
// then a number to a place of the order (0 for none, else 1 + orientation). Spots: x, y and gap to a
// place.
ghost use Rattle.std.specs.Prelude.{◌≡◌, ℕ, ◌+◌, ◌*◌, ◌≤◌, ◌<◌, length, replicate};
ghost use Rattle.rooms.specs.tracks.inner.Tracks.{field, next_columns, look_counts_from, slot_numbers};

// Before a filling: every slot's next column is the first, no look is counted.
pub fn reset(tracks: &mut [usize])
    requires { slot_numbers ≤ length tracks.old }
    ensures { (next_columns tracks.new ≡ replicate 1024 1) × (look_counts_from tracks.new ≡ replicate 1024 0) }
{
    for i in 0..1024 {
        tracks[2 * i] = 1;
        tracks[2 * i + 1] = 0;
    }
}

// The slots' numbers out of their two lists.
pub fn join(next_column: &[usize], look_counts: &[usize], tracks: &mut [usize])
    requires { (length next_column.now ≡ 1024) × (length look_counts.now ≡ 1024) × (slot_numbers ≤ length tracks.old) }
    ensures { (next_columns tracks.new ≡ next_column.now) × (look_counts_from tracks.new ≡ look_counts.now) }
{
    for i in 0..1024 {
        tracks[2 * i] = next_column[i];
        tracks[2 * i + 1] = look_counts[i];
    }
}

// Number r of each row of a table with k numbers to a row.
pub fn read<T: Copy>(table: &[T], k: usize, r: usize, out: &mut [T])
    requires { (k ≤ 4) × (length out.old ≤ 4096) × (r ≤ 4096) × ((i : ℕ) → i < length out.old → k * i + r < length table.now) }
    ensures { (d : T) → out.new ≡ field d k r (length out.old) table.now }
{
    for i in 0..out.len() {
        out[i] = table[k * i + r];
    }
}
