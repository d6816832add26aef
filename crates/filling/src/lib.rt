// What filling (document 01, "Filling") answers and keeps, as the definitions in specs/ speak of it.
// The crates above hold the code.
#![tactic(auto)]

pub mod promises;

ghost use Rattle.std.specs.Prelude.{◌≡◌};
ghost use Rattle.filling.specs.declared.Refusal.TheVariants.{Job};
ghost use Rattle.filling.specs.Refusals.{refusal_of};

use index::Overrun;

// Why a call is refused: document 01's tables; `number_of` of specs/Refusals.antt gives the numbers.
#[derive(Clone, Copy, Debug, PartialEq, Eq)]
pub enum Refusal {
    Job(bits::Refusal),
    MissingShape,
    WrongOrder,
    StripRoom,
    EntryRoom,
    IntervalRoom,
    OrderUsedUp,
    NotStanding,
    TooManyOfKind,
    OutsideRange,
    InTheWay,
    PositionRoom,
    Inconsistent,
}

// A room that is overrun below is the refusal of that name.
impl From<Overrun> for Refusal {
    ghost from_gives = { λ e r. r ≡ refusal_of e };

    fn from(e: Overrun) -> Refusal {
        match e {
            Overrun::StripRoom => Refusal::StripRoom,
            Overrun::EntryRoom => Refusal::EntryRoom,
            Overrun::IntervalRoom => Refusal::IntervalRoom,
        }
    }
}

// A job that is refused: 1 to 8.
impl From<bits::Refusal> for Refusal {
    ghost from_gives = { λ e r. r ≡ Job e };

    fn from(e: bits::Refusal) -> Refusal {
        Refusal::Job(e)
    }
}

// What a start prepares. A slot is 16 × kind + orientation.
#[derive(Clone, Copy)]
pub struct Tables {
    pub resolution: f64,
    pub sheet_bounds: strips::Rect,
    // The sheet's strips in their room.
    pub sheet_strips: usize,
    // The apart strips in the shapes room; the inset strips lie after them.
    pub apart_strips: usize,
    // Four to a slot: its inset bounds.
    pub inset_bounds: [f64; 4096],
    // Four to a slot: its first apart strip, its apart strips, its first inset strip and its inset
    // strips, each in its part of the shapes room.
    pub parts: [usize; 4096],
}

// For each place in the order 0 for none, or 1 + orientation with x, y and the clear height above.
#[derive(Clone, Copy)]
pub struct Layout {
    pub orientation: [usize; 4096],
    pub x: [f64; 4096],
    pub y: [f64; 4096],
    pub gap: [f64; 4096],
    pub unplaced_area: f64,
    pub right: f64,
}

// What stands between two calls of next copy, beside the strip and entry rooms.
#[derive(Clone, Copy)]
pub struct State {
    pub tables: Tables,
    // The kind at each place in the order.
    pub order: [usize; 4096],
    pub taken: usize,
    // By slot: 0 for none, or 1 + the remembered column.
    pub next_column: [usize; 1024],
    pub look_counts: [usize; 1024],
    // The placed copies' strips in their room.
    pub placed_strips: usize,
    pub layout: Layout,
}

// What a filling or a whole plan answers beside the positions; look counts by slot.
#[derive(Clone, Copy)]
pub struct Plan {
    pub placed: usize,
    pub unplaced: usize,
    pub improvements: usize,
    pub placed_of: [usize; 64],
    pub unplaced_of: [usize; 64],
    pub look_counts: [usize; 1024],
    pub right: f64,
    pub unplaced_area: f64,
    pub offcut: f64,
}
