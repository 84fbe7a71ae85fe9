// The status of each cell of a plan, in a list: at the start, whether a record is stuck, and after a record.
#![tactic(auto)]

ghost use Rattle.std.specs.Prelude.{◌≤◌, length};
ghost use Rattle.model.specs.Sides.{Layout, cell_count};
ghost use Rattle.model.specs.Effects.{State, start};
ghost use Rattle.model.specs.Inner.Events.{Past};
ghost use Rattle.reading.specs.Bytes.{layout_of};
ghost use Rattle.reading.specs.Inner.Cells.{from_of, to_of, step_of};
ghost use Rattle.format.specs.Plans.{action_of};
ghost use Rattle.memories.specs.Inner.Ranges.{Room, IsStep, Changed};
ghost use Rattle.steps.specs.Inner.Beginning.{Counted};
ghost use Rattle.tracked.specs.Inner.Tracking.{Acting, Touched, Statuses, Covered, Tracks};

use masks::{Masks, after, masks_of, stops};
use reading::{Fields, first_cell, length_at, next_cell, scratch_at, step_of};
use statuses::acts::start_of;

mod masks;

// Puts a status in the cells `from` up to `to`.
fn put(cells: &mut [u8], from: usize, to: usize, status: u8)
    requires { Room from to cells.old }
    ensures { Changed 1 from to (λ c. status) cells.old cells.new }
{
    cells[from..to].fill(status);
}

// Writes the status of each cell at the start, array by array, where `first` is its first cell.
pub fn write_statuses(plan: &[u8], arrays: usize, cells: &mut [u8])
    requires { Counted plan.now arrays × (cell_count (layout_of plan.now) ≤ length cells.old) }
    ensures { Statuses (layout_of plan.now) (start (layout_of plan.now)) cells.new }
{
    let mut first = 0;
    for a in 0..arrays {
        let next = first + length_at(plan, a) as usize;
        let status = start_of(scratch_at(plan, a)) as u8;
        put(cells, first, next, status);
        first = next;
    }
}

// Whether a record with these masks stops in one of the cells `from`, `from` + step and so on below `to`; each of them gets the status after it. It goes through all of them, whether one
// stops or not, and each once.
fn touch(m: Masks, cells: &mut [u8], step: usize, from: usize, to: usize) -> bool
    requires { IsStep step × Room from to cells.old }
    ensures { Touched m step from to cells.old cells.new result }
{
    let mut stuck = false;
    let mut c = from;
    // A loop over steps of a range tests twice at each cell, and is slower.
    while c < to {
        let w = cells[c];
        stuck |= stops(m, w);
        cells[c] = after(m, w);
        c += step;
    }
    stuck
}

// The same, where each cell has a loop of its own: the compiler takes many cells in a row at a time.
fn touch_by(m: Masks, cells: &mut [u8], step: usize, from: usize, to: usize) -> bool
    requires { IsStep step × Room from to cells.old }
    ensures { Touched m step from to cells.old cells.new result }
{
    if step == 1 {
        touch(m, cells, 1, from, to)
    } else {
        touch(m, cells, step, from, to)
    }
}

// Whether a record with the fields x, of kind 1 to 5, is stuck, where its array begins at cell `first` and ends before cell `next`. If it is not, the cells get the statuses after it.
pub fn track(x: Fields, first: u16, next: u16, cells: &mut [u8]) -> bool
    requires { Acting x.kind x.side × Room (from_of x first) (to_of x first next) cells.old }
    ensures { (layout : Layout) (σ : State) → Covered layout (action_of x) (step_of x) (from_of x first) (to_of x first next) → Past σ → Statuses layout σ cells.old → Tracks layout (action_of x) σ result cells.new }
{
    let from = first_cell(x, first);
    let to = next_cell(x, first, next);
    let step = step_of(x);
    let m = masks_of(x.kind, x.side);
    touch_by(m, cells, step, from, to)
}
