// A standing copy goes (document 02, W4): its strips, entries and first buckets out of their rooms,
// its place out of the state; right is found anew.
ghost use Rattle.std.specs.Prelude.{◌≡◌, ℕ, suc, ◌+◌, ◌-◌, ◌*◌, ◌^◌, ◌≤◌, ◌<◌};
ghost use Rattle.job.specs.Jobs.{Job};
ghost use Rattle.filling.specs.Rooms.{Rooms, rooms_of};
ghost use Rattle.filling.specs.State.{planner_at};
ghost use Rattle.filling.specs.Withdraw.{standing_here, layout_without, withdrawn};
ghost use Rattle.withdraw.specs.standing.inner.Standing.{Slotted};
ghost use Rattle.withdraw.specs.withdraw_copy.inner.Leaving.{strips_before, strips_here, right_found, state_left, taken, Leaving};

use crate::standing;
use filling::{Layout, State};
use index::{Bucket, Entry, Index};

// The strips of the copies before a place.
fn strips_before(state: State, place: usize) -> usize
    requires { (place ≤ 4096) × Slotted state.order state.layout.orientation place × (strips_before state place < 2 ^ 64) }
    ensures { result ≡ strips_before state place }
{
    let tables = state.tables;
    let parts = tables.parts;
    let order = state.order;
    let layout = state.layout;
    let orientation = layout.orientation;
    standing::strips_to(&parts, &order, &orientation, place)
}

// The strips of the copy at a place.
fn strips_here(state: State, place: usize) -> usize
    requires { (place < 4096) × Slotted state.order state.layout.orientation (place + 1) }
    ensures { result ≡ strips_here state place }
{
    let tables = state.tables;
    let parts = tables.parts;
    let order = state.order;
    let layout = state.layout;
    let orientation = layout.orientation;
    standing::strips_at(&parts, order[place], orientation[place])
}

// Right of the standing copies but that at a place.
fn right_found(state: State, place: usize) -> f64
    requires { (place < state.taken) × (state.taken ≤ 4096) × Slotted state.order state.layout.orientation state.taken }
    ensures { result ≡ right_found state place }
{
    let tables = state.tables;
    let b = tables.sheet_bounds;
    let inset_bounds = tables.inset_bounds;
    let order = state.order;
    let layout = state.layout;
    let orientation = layout.orientation;
    let x = layout.x;
    let before = standing::right_over(&inset_bounds, &order, &orientation, &x, b.left, 0, place);
    let next = place + 1;
    standing::right_over(
        &inset_bounds,
        &order,
        &orientation,
        &x,
        before,
        next,
        state.taken,
    )
}

// The places of the copies taken close up; the last is one to come.
fn layout_without(layout: Layout, place: usize, taken: usize, right: f64) -> Layout
    requires { (place < taken) × (taken ≤ 4096) }
    ensures { result ≡ layout_without layout place taken right }
{
    let mut orientation = layout.orientation;
    let mut x = layout.x;
    let mut y = layout.y;
    let mut gap = layout.gap;
    close_up::close(&mut orientation, place, taken, 0);
    close_up::close(&mut x, place, taken, 0.0);
    close_up::close(&mut y, place, taken, 0.0);
    close_up::close(&mut gap, place, taken, 0.0);
    Layout {
        orientation: orientation,
        x: x,
        y: y,
        gap: gap,
        unplaced_area: layout.unplaced_area,
        right: right,
    }
}

// The state without the copy at a place, which joins the end of the order; so many strips go.
fn state_without(state: State, place: usize, copies: usize, gone: usize, right: f64) -> State
    requires { (place < state.taken) × (state.taken ≤ copies) × (copies ≤ 4096) × (gone ≤ state.placed_strips) }
    ensures { result ≡ state_left state place copies gone right }
{
    let mut order = state.order;
    let kind = order[place];
    close_up::close(&mut order, place, copies, kind);
    let old = state.layout;
    let layout = layout_without(old, place, state.taken, right);
    let tables = state.tables;
    let taken = state.taken - 1;
    let strips = state.placed_strips - gone;
    State {
        tables: tables,
        order: order,
        taken: taken,
        next_column: [1; 1024],
        look_counts: [0; 1024],
        placed_strips: strips,
        layout: layout,
    }
}

// The copy at a place goes. Only crates of ours call it: state and rooms must have passed refusal
// 31's tests, and the copy must stand.
pub fn withdraw_copy(
    state: State,
    place: usize,
    copies: usize,
    placed: &mut [f64],
    entries: &mut [Entry],
    firsts: &mut [Bucket],
) -> State
    requires { (j : Job) × (w : Rooms) × Leaving j state w place copies placed.old entries.old firsts.old }
    ensures { (j : Job) (w : Rooms) → Leaving j state w place copies placed.old entries.old firsts.old
        → taken result (rooms_of w.shapes w.sheet placed.new w.sheet_entries entries.new w.sheet_firsts firsts.new)
        ≡ withdrawn j (planner_at j state.tables w) state w place (standing_here state place) }
{
    let right = right_found(state, place);
    let before = strips_before(state, place);
    let gone = strips_here(state, place);
    let tables = state.tables;
    let b = tables.sheet_bounds;
    let ix = Index::new(b.left, b.right);
    close_up::close_rooms(
        ix,
        placed,
        before,
        gone,
        state.placed_strips,
        entries,
        firsts,
    );
    state_without(state, place, copies, gone, right)
}
