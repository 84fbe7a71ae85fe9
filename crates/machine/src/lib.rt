// One step of a run.
#![tactic(auto)]

ghost use Rattle.std.specs.Prelude.{◌≡◌, ◌<◌, length, None};
ghost use Rattle.model.specs.Sides.{cell_count};
ghost use Rattle.reading.specs.Bytes.{layout_of};
ghost use Rattle.memories.specs.Inner.Ranges.{Same};
ghost use Rattle.standing.specs.Inner.Standing.{runner, measure, Stood, Steps};

use acts::act;
use known::is_whole;
use model::Tally;
use reading::kinds::BRANCH;
use reading::{first_cell, next_cell, record_at};
use standing::{Machine, Stepped, tally_after};

// One step of the definition of a run: a record, a branch, a test of a loop, a turn of a fixed loop, or the end. The tally goes through it by value.
pub fn step(
    m: Machine,
    plan: &[u8],
    choices: &[u8],
    host: &mut [u64],
    card: &mut [u64],
    latest: &mut [u64],
    room: &mut [u16],
    t: Tally,
) -> Stepped
    requires { (m.verdict ≡ None) × Stood plan.now choices.now (runner m room.old) host.old card.old latest.old t }
    ensures { Steps plan.now choices.now (runner m room.old) host.old card.old latest.old t (runner result.machine room.new) host.new card.new latest.new result.tally × (measure plan.now (length choices.now) (runner result.machine room.new) < measure plan.now (length choices.now) (runner m room.old)) × Same (cell_count (layout_of plan.now)) host.old host.new × Same (cell_count (layout_of plan.now)) card.old card.new × Same (cell_count (layout_of plan.now)) latest.old latest.new }
{
    let p = m.place;
    if p.at == p.end {
        return m.over(Ok(()), t);
    }
    let x = record_at(plan, m.bodies, p.at);
    if BRANCH <= x.kind {
        return Stepped {
            machine: m.lead(x, choices, room),
            tally: t,
        };
    }
    let a = x.array as usize;
    let first = room[a];
    let next = room[a + 1];
    let from = first_cell(x, first);
    let to = next_cell(x, first, next);
    let whole = is_whole(from, to, first, next);
    let r = act(x, whole, from, to, m.acted_on(t), host, card, latest);
    Stepped {
        machine: m.after(r, room),
        tally: tally_after(t, r),
    }
}

// One step, around which the tally is lent: it is brought up to date after each record.
pub fn step_lent(
    m: Machine,
    plan: &[u8],
    choices: &[u8],
    host: &mut [u64],
    card: &mut [u64],
    latest: &mut [u64],
    room: &mut [u16],
    tally: &mut Tally,
) -> Machine
    requires { (m.verdict ≡ None) × Stood plan.now choices.now (runner m room.old) host.old card.old latest.old tally.old }
    ensures { Steps plan.now choices.now (runner m room.old) host.old card.old latest.old tally.old (runner result room.new) host.new card.new latest.new tally.new × (measure plan.now (length choices.now) (runner result room.new) < measure plan.now (length choices.now) (runner m room.old)) × Same (cell_count (layout_of plan.now)) host.old host.new × Same (cell_count (layout_of plan.now)) card.old card.new × Same (cell_count (layout_of plan.now)) latest.old latest.new }
{
    let r = step(m, plan, choices, host, card, latest, room, *tally);
    *tally = r.tally;
    r.machine
}
