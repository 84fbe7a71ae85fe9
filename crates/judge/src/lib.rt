// The judge: numbers 11 to 15.
#![tactic(auto)]

ghost use Rattle.std.specs.Prelude.{◌≡◌, true, ℕ, suc, ◌-◌};
ghost use Rattle.model.specs.Verdicts.{Accepted};
ghost use Rattle.model.specs.Rows.{answer_of, all_rows};
ghost use Rattle.reading.specs.Bytes.{is_declared, body_count, declarations_in};
ghost use Rattle.contents.specs.Found.{found};
ghost use Rattle.format.specs.Opening.{opening, opened};
ghost use Rattle.passes.specs.Inner.Passes.{PassAt};
ghost use Rattle.permits.specs.Inner.Uses.{ByArray};
ghost use Rattle.marks.specs.Inner.Marks.{Tables};
ghost use Rattle.judge.specs.Judged.{w_rows, pass_rows, judged};
ghost use Rattle.judge.specs.Inner.Unmet.{Decides};

use contents::Opened;
use format::open;
use marks::{Declared, mark_written, met};
use model::{Fault, Verdict};
use passes::{Extent, extent_of};
use permits::{declarations, uses};
use reading::kinds::{CELLS, DECLARED, STARTS};
use reading::record_at;

// Number 15 by the set of the cells that every way through the pass writes: the lowest declaration that is not met.
fn first_unmet(plan: &[u8], starts: &[u16; STARTS], set: &[bool; CELLS], e: Extent) -> Verdict
    requires { PassAt plan.now e × Decides plan.now starts.now set.now e }
    ensures { result ≡ answer_of (all_rows (declarations_in plan.now e.body) (w_rows plan.now e.body)) }
{
    for i in 0..e.declarations {
        let r = e.from + i;
        if !met(starts, set, record_at(plan, e.bodies, r)) {
            return Err(Fault::Refused(15, r as u16));
        }
    }
    Ok(())
}

// Number 15 of a pass, which declares this of each array.
fn unmet(plan: &[u8], starts: &[u16; STARTS], e: Extent, declared: &Declared) -> Verdict
    requires { PassAt plan.now e × ByArray plan.now e declared.now × Tables plan.now starts.now declared.now }
    ensures { result ≡ answer_of (all_rows (declarations_in plan.now e.body) (w_rows plan.now e.body)) }
{
    let mut set = [false; CELLS];
    mark_written(
        plan,
        e.bodies,
        starts,
        declared,
        &mut set,
        e.from + e.declarations,
        e.from + e.records,
    );
    first_unmet(plan, starts, &set, e)
}

// Numbers 12 to 14 by record, then 15, of one pass; `starts` has the first cell of each array.
fn judge_pass(plan: &[u8], starts: &[u16; STARTS], e: Extent) -> Verdict
    requires { PassAt plan.now e × (starts.now ≡ (found plan.now).array_starts) }
    ensures { result ≡ answer_of (pass_rows plan.now e.body) }
{
    let declared = declarations(plan, e)?;
    uses(plan, e, &declared)?;
    unmet(plan, starts, e, &declared)
}

// Numbers 12 to 15 of every pass, in which opening found o.
fn all_passes(plan: &[u8], o: Opened) -> Verdict
    requires { (Accepted ≡ opening plan.now) × (is_declared plan.now ≡ true) × (o ≡ found plan.now) }
    ensures { result ≡ answer_of (all_rows (body_count plan.now - 1) (λ (b : ℕ). pass_rows plan.now (suc b))) }
{
    for b in 1..o.bodies as usize {
        judge_pass(plan, &o.array_starts, extent_of(o, b))?;
    }
    Ok(())
}

// Judges a plan file of which opening gave o.
pub fn judge_opened(plan: &[u8], o: Result<Opened, Fault>) -> Verdict
    requires { o ≡ opened plan.now }
    ensures { result ≡ judged plan.now }
{
    let o = o?;
    if o.kind != DECLARED {
        return Err(Fault::Refused(11, 0));
    }
    all_passes(plan, o)
}

// Judges a plan file of any bytes.
pub fn judge(plan: &[u8]) -> Verdict
    ensures { result ≡ judged plan.now }
{
    judge_opened(plan, open(plan))
}
