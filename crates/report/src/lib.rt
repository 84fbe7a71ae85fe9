// The run of a plan on memories that hold every plan's cells, and what is reported of it.
#![tactic(auto)]

ghost use Rattle.std.specs.Prelude.{◌≡◌};
ghost use Rattle.report.specs.Reports.{ending_of, nothing, ReportOf};
ghost use Rattle.run.specs.Running.{lent};

use model::{End, Fault, Tally, Values};
use reading::kinds::CELLS;

// No plan has more cells.
pub type Memory = [u64; CELLS];

// How a run ended, with the figures of one that is done; a refused one has not begun.
#[derive(Clone, Copy)]
pub enum Ending {
    Done(End),
    Stopped,
    Spent,
    Refused,
}

// What is reported of a run.
#[derive(Clone, Copy)]
pub struct Report {
    pub ending: Ending,
    pub values: Values,
    pub tally: Tally,
}

// How a run with this answer ended.
fn ending_of(answer: Result<End, Fault>) -> Ending
    ensures { result ≡ ending_of answer }
{
    match answer {
        Ok(end) => Ending::Done(end),
        Err(Fault::Stopped(_, _)) => Ending::Stopped,
        Err(Fault::Refused(22, _)) => Ending::Spent,
        Err(Fault::Refused(_, _)) => Ending::Refused,
    }
}

// Runs a plan file of any bytes on any choices, and leaves the run's memories behind.
pub fn report_of(
    plan: &[u8],
    choices: &[u8],
    host: &mut Memory,
    card: &mut Memory,
    latest: &mut Memory,
) -> Report
    ensures { ReportOf plan.now choices.now (lent host.old card.old latest.old nothing) (lent host.new card.new latest.new result.tally) result }
{
    let nothing = Tally {
        reads: 0,
        writes: 0,
        moved: 0,
    };
    let counted = run::run(plan, host, card, latest, choices, nothing);
    Report {
        ending: ending_of(counted.end),
        values: model::values_of(counted.end.map(|_| ()), 21),
        tally: counted.tally,
    }
}
