// The run of a plain plan.
#![tactic(auto)]

ghost use Rattle.std.specs.Prelude.{◌≡◌};
ghost use Rattle.format.specs.Opening.{opened};
ghost use Rattle.run.specs.Running.{Runs, lent};

use answers::{end_of, ready};
use contents::Opened;
use model::{End, Fault, Tally};
use steps::run_to_end;

mod answers;

// A run's answer, and what its tally has become.
#[derive(Clone, Copy)]
pub struct Counted {
    pub end: Result<End, Fault>,
    pub tally: Tally,
}

// The run of a plan file that opens as o, on lent memories, the tally by value.
pub fn run_opened(
    plan: &[u8],
    o: Result<Opened, Fault>,
    host: &mut [u64],
    card: &mut [u64],
    latest: &mut [u64],
    choices: &[u8],
    tally: Tally,
) -> Counted
    requires { o ≡ opened plan.now }
    ensures { Runs plan.now choices.now (lent host.old card.old latest.old tally) (lent host.new card.new latest.new result.tally) result.end }
{
    match ready(plan, o, host, card, latest, choices) {
        Ok(o) => {
            let s = run_to_end(plan, o, choices, host, card, latest);
            Counted {
                end: end_of(s.machine),
                tally: s.tally,
            }
        }
        Err(fault) => Counted {
            end: Err(fault),
            tally,
        },
    }
}

// Runs a plan file on lent memories, the tally by value.
pub fn run(
    plan: &[u8],
    host: &mut [u64],
    card: &mut [u64],
    latest: &mut [u64],
    choices: &[u8],
    tally: Tally,
) -> Counted
    ensures { Runs plan.now choices.now (lent host.old card.old latest.old tally) (lent host.new card.new latest.new result.tally) result.end }
{
    run_opened(plan, format::open(plan), host, card, latest, choices, tally)
}
