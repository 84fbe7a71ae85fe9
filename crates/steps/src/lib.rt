// The steps of a run of an opened plain plan, from the start to its end.
#![tactic(auto)]

ghost use Rattle.std.specs.Prelude.{◌≡◌, not, length, IsSome};
ghost use Rattle.model.specs.Sides.{cell_count};
ghost use Rattle.reading.specs.Bytes.{scratch_at, layout_of};
ghost use Rattle.memories.specs.Flags.{mask};
ghost use Rattle.memories.specs.Inner.Ranges.{Room, Changed, Same};
ghost use Rattle.standing.specs.Inner.Standing.{runner, Reaches};
ghost use Rattle.steps.specs.Inner.Beginning.{Fronted, Counted, Zeros, first_host, first_machine, ReachesEnd, Ready};

use contents::Opened;
use known::Known;
use machine::step_lent;
use memories::fill;
use memories::flags::with_flag;
use model::{Record, Tally};
use places::{Place, ROOM};
use reading::kinds::STARTS;
use reading::{length_at, scratch_at};
use standing::{Machine, Stepped};

// Stands for "never".
const NEVER: u64 = u64::MAX;

// Puts "never" into the cells of scratch of the host's memory, in which all cells hold 0, and gives the host's flags: those of all arrays but scratch. Array by array, where
// `first` is its first cell.
#[tactic(auto, unfolding(reading::specs::Bytes::entry_at))]
fn start_scratch(plan: &[u8], arrays: usize, host: &mut [u64]) -> u64
    requires { Counted plan.now arrays × Zeros (cell_count (layout_of plan.now)) host.old }
    ensures host { Changed 1 0 (cell_count (layout_of plan.now)) (first_host plan.now) host.old host.new }
    ensures flags { result ≡ mask arrays (λ a. not (scratch_at plan.now a)) }
{
    let mut flags: u64 = 0;
    let mut first: usize = 0;
    for a in 0..arrays {
        let next = first + length_at(plan, a) as usize;
        if scratch_at(plan, a) {
            fill(host, first, next, NEVER);
        } else {
            flags = with_flag(flags, a as u8);
        }
        first = next;
    }
    flags
}

// Writes the start into the first cells of the memories, and gives the host's flags.
fn write_start(
    plan: &[u8],
    arrays: usize,
    host: &mut [u64],
    card: &mut [u64],
    latest: &mut [u64],
    cells: usize,
) -> u64
    requires { Counted plan.now arrays × (cells ≡ cell_count (layout_of plan.now)) × Room 0 cells host.old × Room 0 cells card.old × Room 0 cells latest.old }
    ensures host { Changed 1 0 cells (first_host plan.now) host.old host.new }
    ensures card { Changed 1 0 cells (λ c. 18446744073709551615) card.old card.new }
    ensures latest { Changed 1 0 cells (λ c. 0) latest.old latest.new }
    ensures flags { result ≡ mask arrays (λ a. not (scratch_at plan.now a)) }
{
    fill(host, 0, cells, 0);
    fill(card, 0, cells, NEVER);
    fill(latest, 0, cells, 0);
    start_scratch(plan, arrays, host)
}

// Puts the first cells of the arrays at the front of the room.
pub fn put_starts(starts: &[u16; STARTS], room: &mut [u16])
    requires { length room.old ≡ 81 }
    ensures { Fronted starts.now room.old room.new }
{
    room[..STARTS].copy_from_slice(starts);
}

// Before the first record, where the host's flags are these.
fn first_machine(records: u16, flags: u64, bodies: usize) -> Machine
    ensures { result ≡ first_machine records flags bodies }
{
    Machine {
        place: Place::first(records),
        host_flags: flags,
        card_flags: 0,
        bodies,
        last: Record(0),
        verdict: None,
        known: Known::at_start(flags),
    }
}

// The steps of a run, to its end. The tally is lent, and each step brings it up to date.
pub fn run_lent(
    m: Machine,
    plan: &[u8],
    choices: &[u8],
    host: &mut [u64],
    card: &mut [u64],
    latest: &mut [u64],
    room: &mut [u16],
    tally: &mut Tally,
) -> Machine
    requires { Reaches plan.now choices.now (runner m room.old) host.old card.old latest.old tally.old }
    ensures { Reaches plan.now choices.now (runner result room.new) host.new card.new latest.new tally.new × IsSome result.verdict × Same (cell_count (layout_of plan.now)) host.old host.new × Same (cell_count (layout_of plan.now)) card.old card.new × Same (cell_count (layout_of plan.now)) latest.old latest.new }
{
    let mut n = m;
    while n.verdict.is_none() {
        n = step_lent(n, plan, choices, host, card, latest, room, tally);
    }
    n
}

// The same with the tally by value: whoever calls this needs no proof by hand.
fn run_steps(
    m: Machine,
    plan: &[u8],
    choices: &[u8],
    host: &mut [u64],
    card: &mut [u64],
    latest: &mut [u64],
    room: &mut [u16],
    t: Tally,
) -> Stepped
    requires { Reaches plan.now choices.now (runner m room.old) host.old card.old latest.old t }
    ensures { Reaches plan.now choices.now (runner result.machine room.new) host.new card.new latest.new result.tally × IsSome result.machine.verdict × Same (cell_count (layout_of plan.now)) host.old host.new × Same (cell_count (layout_of plan.now)) card.old card.new × Same (cell_count (layout_of plan.now)) latest.old latest.new }
{
    let mut tally = t;
    let machine = run_lent(m, plan, choices, host, card, latest, room, &mut tally);
    Stepped { machine, tally }
}

// Runs an opened plain plan to its end.
pub fn run_to_end(
    plan: &[u8],
    o: Opened,
    choices: &[u8],
    host: &mut [u64],
    card: &mut [u64],
    latest: &mut [u64],
) -> Stepped
    requires { Ready plan.now o choices.now host.old card.old latest.old }
    ensures reaches { ReachesEnd plan.now choices.now result.machine host.new card.new latest.new result.tally }
    ensures ended { IsSome result.machine.verdict }
    ensures host { Same (cell_count (layout_of plan.now)) host.old host.new }
    ensures card { Same (cell_count (layout_of plan.now)) card.old card.new }
    ensures latest { Same (cell_count (layout_of plan.now)) latest.old latest.new }
{
    let starts = o.array_starts;
    let mut room = [0u16; ROOM];
    put_starts(&starts, &mut room);
    let arrays = o.arrays as usize;
    let flags = write_start(plan, arrays, host, card, latest, o.cells as usize);
    let m = first_machine(o.records, flags, o.offset as usize);
    let nothing = Tally {
        reads: 0,
        writes: 0,
        moved: 0,
    };
    run_steps(m, plan, choices, host, card, latest, &mut room, nothing)
}
