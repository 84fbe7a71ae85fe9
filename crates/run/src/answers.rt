// The answers of a run: the numbers before it, and what its end answers.
ghost use Rattle.std.specs.Prelude.{◌≡◌, Bool, ℕ, ◌≤◌, ◌<◌};
ghost use Rattle.std.specs.Option.{unwrap_or};
ghost use Rattle.model.specs.declared.Tally.{Tally};
ghost use Rattle.model.specs.Rows.{answer_of};
ghost use Rattle.model.specs.Verdicts.{Accepted, where_accepted};
ghost use Rattle.contents.specs.Found.{found};
ghost use Rattle.format.specs.Opening.{opened};
ghost use Rattle.memories.specs.Flags.{mask};
ghost use Rattle.run.specs.Running.{lent, run_rows};
ghost use Rattle.run.specs.Inner.Ending.{end_with};

use contents::Opened;
use memories::flags::flags_set;
use model::{End, Fault};
use reading::kinds::{CHOICES, PLAIN};
use standing::Machine;

// What opening has found in a plan file of which the run may begin, or the first of numbers 1 to 11, 19, 20 and 26.
#[tactic(auto, using(crate::proofs::Begins::ready_unopened, crate::proofs::Begins::ready_other_kind))]
pub fn ready(
    plan: &[u8],
    o: Result<Opened, Fault>,
    host: &[u64],
    card: &[u64],
    latest: &[u64],
    choices: &[u8],
) -> Result<Opened, Fault>
    requires { o ≡ opened plan.now }
    ensures { (t : Tally) → result ≡ where_accepted (answer_of (run_rows plan.now choices.now (lent host.now card.now latest.now t))) (found plan.now) }
{
    let o = o?;
    if o.kind != PLAIN {
        return Err(Fault::Refused(11, 0));
    }
    let n = o.cells as usize;
    if (host.len() < n) | (card.len() < n) | (latest.len() < n) {
        return Err(Fault::Refused(19, 0));
    }
    if CHOICES < choices.len() {
        return Err(Fault::Refused(20, 0));
    }
    Ok(o)
}

// What the end of a run answers; of one that goes on, what it would answer if it were done here.
pub fn end_of(m: Machine) -> Result<End, Fault>
    requires { (m.place.used ≤ 65536) × (m.host_flags < 4294967296) × (m.card_flags < 4294967296) }
    ensures { (n : ℕ) (host card : ℕ → Bool) → m.host_flags ≡ mask n host → m.card_flags ≡ mask n card → result ≡ end_with n host card m.place.used (unwrap_or m.verdict Accepted) }
{
    m.verdict.unwrap_or(Ok(()))?;
    let p = m.place;
    let host_flags = m.host_flags as u32;
    let card_flags = m.card_flags as u32;
    Ok(End {
        used: p.used as u32,
        host_flags,
        card_flags,
        on_host: flags_set(host_flags),
        on_card: flags_set(card_flags),
    })
}
