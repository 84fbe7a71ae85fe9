// The check of a plain plan.
#![tactic(auto)]

ghost use Rattle.std.specs.Prelude.{◌≡◌};
ghost use Rattle.format.specs.Opening.{opened};
ghost use Rattle.checker.specs.Checking.{Checks};

use cells::{PlainPlan, answer};
use contents::Opened;
use model::{Fault, Verdict};
use reading::kinds::PLAIN;

// The check of a plan file that opening has answered with o.
#[tactic(auto, using(crate::proofs::Rows::checks_unopened, crate::proofs::Rows::checks_declared, crate::proofs::Rows::checks_plain))]
pub fn check_opened(plan: &[u8], o: Result<Opened, Fault>) -> Verdict
    requires { o ≡ opened plan.now }
    ensures { Checks plan.now result }
{
    let o = o?;
    if o.kind != PLAIN {
        return Err(Fault::Refused(11, 0));
    }
    let plain = PlainPlan {
        file: plan,
        bodies: o.offset as usize,
        records: o.records as usize,
    };
    let starts = o.array_starts;
    answer(plain, o.arrays as usize, &starts)
}

// Whether some run of a plan file may stop, at which record and in which cell.
pub fn check(plan: &[u8]) -> Verdict
    ensures { Checks plan.now result }
{
    check_opened(plan, format::open(plan))
}
