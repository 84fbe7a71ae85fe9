// The answer over the cells of an opened plain plan: cells that no record tells apart share one walk.
#![tactic(auto)]

ghost use Rattle.std.specs.Prelude.{◌≡◌, ℕ, ◌+◌, ◌≤◌, ◌<◌, get_or};
ghost use Rattle.model.specs.Sides.{span_of, is_scratch};
ghost use Rattle.model.specs.Check.{Answers};
ghost use Rattle.model.specs.Inner.Statuses.{at_start};
ghost use Rattle.model.specs.Inner.Stops.{StopsAt};
ghost use Rattle.model.specs.Inner.Lowest.{Least, Fits};
ghost use Rattle.reading.specs.Bytes.{array_count, layout_of, record_count};
ghost use Rattle.format.specs.Plans.{plan_of};
ghost use Rattle.format.specs.Inner.Walks.{Starts};
ghost use Rattle.statuses.specs.Inner.Sets.{index, record_of};
ghost use Rattle.lookahead.specs.Inner.Ahead.{cell_at, IsPlain, Spare};
ghost use Rattle.summary.specs.Inner.Ways.{Room};
ghost use Rattle.classes.specs.Inner.Marks.{Marked};
ghost use Rattle.cells.specs.Inner.Spans.{Span};

use classes::{PLACES, marks, with_cell};
pub use lookahead::PlainPlan;
use lookahead::Spot;
use model::{Array, Cell, Record, Verdict};
use reading::kinds::STARTS;
use reading::scratch_at;
use statuses::acts::{Found, start_of};
use statuses::sets::Statuses;
use statuses::stops::Lowest;
use summary::{Row, Walk};

// The lowest record at which cell c, which is at a spot of an array whose cells start with status `start`, can stop, if there is one.
fn stop_of(
    plan: PlainPlan<'_>,
    rows: &mut [Row],
    ahead: &mut [usize],
    spot: Spot,
    c: usize,
    start: usize,
) -> Option<Record>
    requires { IsPlain plan × (spot.offset < (span_of (layout_of plan.file.now) spot.array.0).length) × (c ≡ cell_at plan.file.now spot.array.0 spot.offset) × (c < 4096) × Room plan.file.now c rows.old × Spare plan.file.now ahead.old × (start ≡ index (at_start (is_scratch (layout_of plan.file.now) spot.array.0))) }
    ensures { Least (record_of result) (λ r. StopsAt (plan_of plan.entry.file.now) r c) × Room plan.entry.file.now (c + 1) rows.new × Spare plan.entry.file.now ahead.new }
{
    spot.look_ahead(plan, ahead);
    let walk = Walk {
        plan,
        ahead: &*ahead,
        class: c as u16 + 1,
    };
    let begun = Found {
        set: Statuses::only(start),
        low: Lowest::NONE,
    };
    let t = walk.block(rows, 0, plan.records, begun);
    t.low.record()
}

// The first cell from `from` on that has a mark, `next` if there is none before that one.
fn next_class(m: &[u8; PLACES], from: usize, next: usize) -> usize
    requires { (from ≤ next) × (next ≤ 4096) }
    ensures { (from ≤ result) × (result ≤ next) × ((c : ℕ) → from ≤ c → c < result → get_or m.now c 0 ≡ 1 → ⊥) }
{
    for c in from..next {
        if m[c] == 1 {
            return c;
        }
    }
    next
}

// The cells of an array: those from `first` up to `next`.
#[derive(Clone, Copy)]
struct Cells {
    array: Array,
    first: usize,
    next: usize,
}

// The answer for the cells before an array, and then for its own cells: those that are told apart from the cell before them.
fn over_array(
    plan: PlainPlan<'_>,
    rows: &mut [Row],
    ahead: &mut [usize],
    m: &[u8; PLACES],
    cells: Cells,
    before: Verdict,
) -> Verdict
    requires { IsPlain plan × Marked plan.file.now (record_count plan.file.now) m.now × Span plan.file.now cells.array.0 cells.first cells.next × Fits cells.first (StopsAt (plan_of plan.file.now)) before × Room plan.file.now cells.first rows.old × Spare plan.file.now ahead.old }
    ensures { Fits cells.next (StopsAt (plan_of plan.entry.file.now)) result × Room plan.entry.file.now cells.next rows.new × Spare plan.entry.file.now ahead.new }
{
    let start = start_of(scratch_at(plan.file, cells.array.0 as usize));
    let mut v = before;
    let mut c = cells.first;
    // No range: cells without a mark are passed over.
    while c < cells.next {
        let spot = Spot {
            array: cells.array,
            offset: c - cells.first,
        };
        let k = stop_of(plan, rows, ahead, spot, c, start);
        v = with_cell(v, Cell(c as u16), k);
        c = next_class(m, c + 1, cells.next);
    }
    v
}

// The answer for all cells, with a table of rows.
fn answer_with(
    plan: PlainPlan<'_>,
    arrays: usize,
    starts: &[u16; STARTS],
    rows: &mut [Row],
    ahead: &mut [usize],
) -> Verdict
    requires { IsPlain plan × (arrays ≡ array_count plan.file.now) × Starts plan.file.now starts.now × Room plan.file.now 0 rows.old × Spare plan.file.now ahead.old }
    ensures { Answers (plan_of plan.entry.file.now) result }
{
    let mut m = [0u8; PLACES];
    marks(plan, starts, &mut m);
    let mut v = Ok(());
    let mut first = 0;
    for a in 0..arrays {
        let next = starts[a + 1] as usize;
        let array = Array(a as u16);
        v = over_array(plan, rows, ahead, &m, Cells { array, first, next }, v);
        first = next;
    }
    v
}

// The answer for all cells: a plan of few records needs few rows.
pub fn answer(plan: PlainPlan<'_>, arrays: usize, starts: &[u16; STARTS]) -> Verdict
    requires { IsPlain plan × (arrays ≡ array_count plan.file.now) × Starts plan.file.now starts.now }
    ensures { Answers (plan_of plan.entry.file.now) result }
{
    if plan.records <= 64 {
        let mut few = [Row::BLANK; 1024];
        let mut near = [plan.records; 65];
        return answer_with(plan, arrays, starts, &mut few, &mut near);
    }
    let mut rows = [Row::BLANK; 16384];
    let mut ahead = [plan.records; 1025];
    answer_with(plan, arrays, starts, &mut rows, &mut ahead)
}
