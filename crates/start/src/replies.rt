// What a start answers, and the state before the first copy.
ghost use Rattle.std.specs.Prelude.{◌≡◌};
ghost use Rattle.start.specs.replies.inner.Answers.{not_started, started_with};

use filling::{Layout, Refusal, State, Tables};
use strips::Rect;

// Whether the start was refused, and the state before the first copy; all zero where it was.
#[derive(Clone, Copy)]
pub struct Started {
    pub verdict: Result<(), Refusal>,
    pub state: State,
}

// A refused start.
pub fn refused(k: Refusal) -> Started
    ensures { result ≡ not_started k }
{
    Started {
        verdict: Err(k),
        state: State {
            tables: Tables {
                resolution: 0.0,
                sheet_bounds: Rect {
                    left: 0.0,
                    bottom: 0.0,
                    right: 0.0,
                    top: 0.0,
                },
                sheet_strips: 0,
                apart_strips: 0,
                inset_bounds: [0.0; 4096],
                parts: [0; 4096],
            },
            order: [0; 4096],
            taken: 0,
            next_column: [0; 1024],
            look_counts: [0; 1024],
            placed_strips: 0,
            layout: Layout {
                orientation: [0; 4096],
                x: [0.0; 4096],
                y: [0.0; 4096],
                gap: [0.0; 4096],
                unplaced_area: 0.0,
                right: 0.0,
            },
        },
    }
}

// An accepted start: no copy is taken, every orientation remembers column 0, and right is the
// sheet's left side.
pub fn accepted(tables: Tables, order: [usize; 4096]) -> Started
    ensures { result ≡ started_with tables order }
{
    Started {
        verdict: Ok(()),
        state: State {
            tables,
            order,
            taken: 0,
            next_column: [1; 1024],
            look_counts: [0; 1024],
            placed_strips: 0,
            layout: Layout {
                orientation: [0; 4096],
                x: [0.0; 4096],
                y: [0.0; 4096],
                gap: [0.0; 4096],
                unplaced_area: 0.0,
                right: tables.sheet_bounds.left,
            },
        },
    }
}
