// Where a run stands: the machine, and what it becomes after a record, at a test, at a turn of a fixed loop and at its end.
#![tactic(auto)]

ghost use Rattle.std.specs.Prelude.{◌≡◌, List, ℕ, ◌+◌, ◌≤◌, ◌<◌, length};
ghost use Rattle.reading.specs.Bytes.{first_arm, second_arm};
ghost use Rattle.places.specs.Inner.Places.{spot, begun_at};
ghost use Rattle.standing.specs.Inner.Standing.{runner, stored_with, past_record, after_act, tally_after, ended_with, moved_to, tested, turn_begun, led};

use acts::Stored;
use known::Known;
use model::{Cell, Fault, Record, Tally, Verdict};
use places::Place;
use reading::Fields;
use reading::kinds::FIXED;

// Where a run stands, its flags, what it knows of the cells, and where the plan's bodies begin; the record of the last step; the verdict, once the run has ended. The counters stand in the
// tally alone.
#[derive(Clone, Copy)]
pub struct Machine {
    pub place: Place,
    pub host_flags: u64,
    pub card_flags: u64,
    pub bodies: usize,
    pub last: Record,
    pub verdict: Option<Verdict>,
    pub known: Known,
}

// A machine, and the tally that stands beside it.
#[derive(Clone, Copy)]
pub struct Stepped {
    pub machine: Machine,
    pub tally: Tally,
}

impl Machine {
    // The run has ended.
    fn ended(self, verdict: Verdict) -> Machine
        ensures { (room : List ℕ) → runner result room ≡ ended_with (runner self room) verdict }
    {
        Machine {
            verdict: Some(verdict),
            ..self
        }
    }

    // The same, and the tally is as it was.
    pub fn over(self, verdict: Verdict, tally: Tally) -> Stepped
        ensures { ((room : List ℕ) → runner result.machine room ≡ ended_with (runner self room) verdict) × (result.tally ≡ tally) }
    {
        Stepped {
            machine: self.ended(verdict),
            tally,
        }
    }

    // The run has moved on from a record.
    fn moved(self, place: Place) -> Machine
        requires { self.place.at < 65536 }
        ensures { (room : List ℕ) → runner result room ≡ moved_to (runner self room) (spot place room) self.host_flags self.card_flags self.known }
    {
        Machine {
            place,
            last: Record(self.place.at as u16),
            ..self
        }
    }

    // A branch, or a test of a loop, with the fields x.
    fn test(self, x: Fields, choices: &[u8], room: &mut [u16]) -> Machine
        requires { (self.place.depth < 16) × (self.place.used ≤ length choices.now) × (length choices.now ≤ 65536) × (length room.old ≡ 81) × (self.place.end < 65536) × (self.place.at + 1 + first_arm x + second_arm x < 65536) }
        ensures { runner result room.new ≡ tested (runner self room.old) x choices.now }
    {
        let p = self.place;
        let used = p.used;
        if used == choices.len() {
            return self.ended(Err(Fault::Refused(22, p.at as u16)));
        }
        let q = p.choose(x, choices[used], room);
        self.moved(q.settle(room))
    }

    // A turn of a fixed loop with the fields x: it takes no choice.
    fn begin_turn(self, x: Fields, room: &mut [u16]) -> Machine
        requires { (self.place.depth < 16) × (length room.old ≡ 81) × (self.place.end < 65536) × (self.place.at + 1 + first_arm x < 65536) × (begun_at room.old self.place.depth < x.q) }
        ensures { runner result room.new ≡ turn_begun (runner self room.old) x }
    {
        let q = self.place.turn(x, room);
        self.moved(q.settle(room))
    }

    // A record with arms, with the fields x: a branch, a test of a loop, or a turn of a fixed loop.
    #[tactic(auto, unfolding(crate::specs::Inner::Standing::led))]
    pub fn lead(self, x: Fields, choices: &[u8], room: &mut [u16]) -> Machine
        requires { (self.place.depth < 16) × (self.place.used ≤ length choices.now) × (length choices.now ≤ 65536) × (length room.old ≡ 81) × (self.place.end < 65536) × (self.place.at + 1 + first_arm x + second_arm x < 65536) × (x.kind ≡ 9 → begun_at room.old self.place.depth < x.q) }
        ensures { runner result room.new ≡ led (runner self room.old) x choices.now }
    {
        if x.kind == FIXED {
            return self.begin_turn(x, room);
        }
        self.test(x, choices, room)
    }

    // What a record acts on besides the memories.
    pub fn acted_on(self, tally: Tally) -> Stored
        ensures { (room : List ℕ) → result ≡ stored_with (runner self room) tally }
    {
        Stored {
            host_flags: self.host_flags,
            card_flags: self.card_flags,
            tally,
            known: self.known,
        }
    }

    // Where the run stands after a record without arms: past it, or at its end where its need is unmet.
    pub fn after(self, r: Result<Stored, Cell>, room: &[u16]) -> Machine
        requires { (self.place.at < 1024) × (self.place.depth ≤ 16) × (length room.now ≡ 81) }
        ensures { runner result room.now ≡ after_act (runner self room.now) r }
    {
        match r {
            Ok(s) => Machine {
                host_flags: s.host_flags,
                card_flags: s.card_flags,
                known: s.known,
                ..self.moved(past(self.place).settle(room))
            },
            Err(c) => self.ended(Err(Fault::Stopped(Record(self.place.at as u16), c))),
        }
    }
}

// The place past a record without arms.
pub fn past(p: Place) -> Place
    requires { p.at < 1024 }
    ensures { (room : List ℕ) → spot result room ≡ past_record (spot p room) }
{
    Place { at: p.at + 1, ..p }
}

// The tally after a record without arms: where its need is unmet, as it was.
pub fn tally_after(t: Tally, r: Result<Stored, Cell>) -> Tally
    ensures { result ≡ tally_after t r }
{
    match r {
        Ok(s) => s.tally,
        Err(_) => t,
    }
}
