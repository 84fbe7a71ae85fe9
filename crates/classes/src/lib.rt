// Which cells share a walk, and the answer with the cell of one walk more.
#![tactic(auto)]

ghost use Rattle.std.specs.Prelude.{◌≡◌, ◌≤◌, ◌<◌, length};
ghost use Rattle.model.specs.Inner.Lowest.{with_cell};
ghost use Rattle.reading.specs.Bytes.{record_count};
ghost use Rattle.format.specs.Inner.Walks.{Starts};
ghost use Rattle.lookahead.specs.Inner.Ahead.{IsPlain};
ghost use Rattle.statuses.specs.Inner.Sets.{record_of};
ghost use Rattle.classes.specs.Inner.Marks.{Edged, Marked};

use lookahead::PlainPlan;
use model::{Cell, Fault, Record, Verdict};
use reading::kinds::{COPY, STARTS};
use reading::{Span, cells_of};

// How many places there are where cells of a record may begin or end.
pub const PLACES: usize = 4097;

// Marks each cell of a record and the cell after it: no two of its cells are neighbours.
fn mark_steps(m: &mut [u8; PLACES], cells: Span)
    requires { (length m.old ≡ 4097) × (cells.to ≤ 4096) × (1 ≤ cells.step) × (cells.step < 256) }
    ensures { Edged cells.step cells.from cells.to m.old m.new }
{
    for c in (cells.from..cells.to).step_by(cells.step) {
        m[c] = 1;
        m[c + 1] = 1;
    }
}

// Marks each place where the cells of a record begin or end.
#[tactic(auto, using(crate::proofs::Marking::edged_each))]
fn mark_edges(m: &mut [u8; PLACES], cells: Span)
    requires { (length m.old ≡ 4097) × (cells.from < cells.to) × (cells.to ≤ 4096) × (1 ≤ cells.step) × (cells.step < 256) }
    ensures { Edged cells.step cells.from cells.to m.old m.new }
{
    if cells.step <= 1 {
        m[cells.from] = 1;
        m[cells.to] = 1;
    } else {
        mark_steps(m, cells);
    }
}

// Marks the places of all records.
pub fn marks(plan: PlainPlan<'_>, starts: &[u16; STARTS], m: &mut [u8; PLACES])
    requires { IsPlain plan × Starts plan.file.now starts.now × (length m.old ≡ 4097) }
    ensures { Marked plan.entry.file.now (record_count plan.entry.file.now) m.new }
{
    for r in 0..plan.records {
        let x = plan.record(r);
        if x.kind <= COPY {
            mark_edges(m, cells_of(x, starts));
        }
    }
}

// The answer for the cells before cell c, and then for c too, which can stop at record `low`, if it can stop.
pub fn with_cell(v: Verdict, c: Cell, low: Option<Record>) -> Verdict
    ensures { result ≡ with_cell v c.0 (record_of low) }
{
    match (v, low) {
        (Ok(()), Some(k)) => Err(Fault::Stopped(k, c)),
        (Err(Fault::Stopped(r, _)), Some(k)) if k.0 < r.0 => Err(Fault::Stopped(k, c)),
        _ => v,
    }
}
