// Positions of the room go back to the sheet (document 02, W1): x and y through `from`, the rest stays.
ghost use Rattle.std.specs.Prelude.{◌≡◌, ◌+◌, ◌*◌, ◌≤◌, length};
ghost use Rattle.report.specs.on_sheet.inner.Turned.{back_at, back_to};

use frames::Frame;

// Position i.
fn position_on_sheet(f: Frame, room: &mut [f64], i: usize)
    requires { 6 * i + 6 ≤ length room.old }
    ensures { room.new ≡ back_at f room.old i }
{
    let at = 6 * i;
    let p = f.from(room[at + 3], room[at + 4]);
    room[at + 3] = p.x;
    room[at + 4] = p.y;
}

// The first n positions. Only crates of ours call it: the room must hold them.
pub fn positions_on_sheet(f: Frame, room: &mut [f64], n: usize)
    requires { 6 * n ≤ length room.old }
    ensures { room.new ≡ back_to f room.old n }
{
    for i in 0..n {
        position_on_sheet(f, room, i);
    }
}
