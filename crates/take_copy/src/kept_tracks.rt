// A kind's tracks (remembered column and look count of each of its 16 slots), kept before a copy and
// put back where the copy is refused. Only crates of ours call them.
ghost use Rattle.std.specs.Prelude.{◌≡◌, ℕ, ◌+◌, ◌*◌, ◌≤◌, ◌<◌, length};
ghost use Rattle.rooms.specs.tracks.inner.Tracks.{slot_numbers};
ghost use Rattle.take_copy.specs.kept_tracks.inner.Kept.{Kept, PutBack};

// The numbers of the 16 slots from `slot` on are kept.
pub fn keep(tracks: &[usize], slot: usize, kept: &mut [usize])
    requires { (slot + 16 ≤ 1024) × (slot_numbers ≤ length tracks.now) × (length kept.old ≡ 32) }
    ensures { Kept slot 32 tracks.now kept.new }
{
    for i in 0..32 {
        kept[i] = tracks[2 * slot + i];
    }
}

// The numbers that are kept are put back.
pub fn put_back(kept: &[usize], slot: usize, tracks: &mut [usize])
    requires { (slot + 16 ≤ 1024) × (slot_numbers ≤ length tracks.old) × (length kept.now ≡ 32) }
    ensures { PutBack slot 32 kept.now tracks.old tracks.new }
{
    for n in 0..32 {
        tracks[2 * slot + n] = kept[n];
    }
}
