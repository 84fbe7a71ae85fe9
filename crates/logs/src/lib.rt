// What the router really did: a log of record numbers, held against a plain plan.
#![tactic(auto)]

ghost use Rattle.std.specs.Prelude.{◌≡◌, Ok, List, [], ◌∷◌, ℕ, ◌+◌, ◌/◌, ◌^◌, ◌≤◌, ◌<◌, length};
ghost use Rattle.model.specs.Rows.{answer_of};
ghost use Rattle.model.specs.Verdicts.{where_accepted};
ghost use Rattle.contents.specs.Found.{found};
ghost use Rattle.reading.specs.Bytes.{first_arm, second_arm};
ghost use Rattle.format.specs.Opening.{opened};
ghost use Rattle.places.specs.Inner.Places.{spot, begun_at};
ghost use Rattle.logs.specs.Logged.{entries_of, log_rows, unplaced, Says, Answers};
ghost use Rattle.logs.specs.Inner.Following.{number_of, unused, Ahead, told_by, led_by, trail, moved_to, after_act, Comes, Followed, held_at, held_after, HaveLed, Underway, LedOn, staged, Opens};

use contents::Opened;
use model::{Fault, Verdict};
use places::{Place, ROOM};
use reading::kinds::{BRANCH, CELLS, FIXED, PLAIN};
use reading::{Fields, first_arm, number_at, record_at, second_arm};
use standing::past;
use steps::put_starts;
use tracked::{track, write_statuses};

// An answer, and the entry that 30 and 31 name: an entry's number can pass 16 bits.
#[derive(Clone, Copy)]
pub struct Logged {
    pub verdict: Verdict,
    pub entry: u64,
}

// Why an entry is refused.
#[derive(Clone, Copy)]
pub enum Refusal {
    // No run goes on with it.
    NoRun,
    // Its record is stuck.
    Stops,
}

impl Refusal {
    // Its number.
    fn number(self) -> u8
        ensures { result ≡ number_of self }
    {
        match self {
            Refusal::NoRun => 30,
            Refusal::Stops => 31,
        }
    }
}

// Where the entries of a log that are read, `read` of them, have led: where the run that they tell stands, with the status of each cell and the room of its places. All but the last
// are followed; that one waits for the next, which tells the choice where it is a test. At a refusal the refused entry is the last. The two lists stand first: with them
// last, the compiler clears the whole stage twice where it is made.
#[derive(Clone, Copy)]
pub struct Stage {
    pub cells: [u8; CELLS],
    pub room: [u16; ROOM],
    pub place: Result<Place, Refusal>,
    pub waiting: Option<usize>,
    pub read: u64,
}

// What changes at each entry beside the cells and the room: apart from the stage while a part is followed, since reading the stage and writing it at each entry is slower.
#[derive(Clone, Copy)]
struct Held {
    place: Result<Place, Refusal>,
    waiting: Option<usize>,
    read: u64,
}

// An answer that names no entry.
fn unplaced(v: Verdict) -> Logged
    ensures { result ≡ unplaced v }
{
    Logged {
        verdict: v,
        entry: 0,
    }
}

// A place at which no choice is used.
fn unused(p: Place) -> Place
    ensures { (room : List ℕ) → spot result room ≡ unused (spot p room) }
{
    Place {
        at: p.at,
        end: p.end,
        depth: p.depth,
        used: 0,
    }
}

// The record to which choice 1 leads at a branch or a test of a loop with the fields x, and the end of what holds it: seen without going there.
fn ahead(p: Place, x: Fields, room: &[u16]) -> Place
    requires { (p.depth ≤ 16) × (p.used ≡ 0) × (length room.now ≡ 81) × (p.at < p.end) × (p.at + 1 + first_arm x + second_arm x < 65536) }
    ensures { Ahead (spot p room.now) x result }
{
    let arm = first_arm(x);
    let second = p.at + 1 + arm;
    if 0 < arm {
        return Place {
            at: p.at + 1,
            end: second,
            depth: p.depth,
            used: p.used,
        };
    }
    if x.kind != BRANCH {
        return p;
    }
    let after = Place {
        at: second + second_arm(x),
        end: p.end,
        depth: p.depth,
        used: 1,
    };
    after.settle(room)
}

// The choice that the next entry tells. Where neither choice leads to its record, that entry is refused after this one.
fn choice_told(p: Place, x: Fields, next: usize, room: &[u16]) -> u8
    requires { (p.depth ≤ 16) × (p.used ≡ 0) × (length room.now ≡ 81) × (p.at < p.end) × (p.at + 1 + first_arm x + second_arm x < 65536) }
    ensures { result ≡ told_by (spot p room.now) x next }
{
    let q = ahead(p, x, room);
    if q.at == next && q.at < q.end {
        return 1;
    }
    0
}

// Where a record with arms, with the fields x, leads: a turn of a fixed loop begins, or the choice is taken that the next entry tells.
fn lead(p: Place, x: Fields, next: usize, room: &mut [u16]) -> Place
    requires { (p.depth < 16) × (p.used ≡ 0) × (length room.old ≡ 81) × (p.at < p.end) × (p.end < 65536) × (p.at + 1 + first_arm x + second_arm x < 65536) × (x.kind ≡ 9 → begun_at room.old p.depth < x.q) }
    ensures { spot result room.new ≡ led_by (spot p room.old) x next }
{
    if x.kind == FIXED {
        let t = p.turn(x, room);
        return t.settle(room);
    }
    let c = choice_told(p, x, next, room);
    // A call for each choice: each is then followed without the other's work.
    if c == 0 {
        let q = p.choose(x, 0, room);
        return q.settle(room);
    }
    let q = p.choose(x, c, room);
    q.settle(room)
}

// Where the run stands after a record without arms: past it, or stuck at it.
fn after(p: Place, stuck: bool, room: &[u16]) -> Result<Place, Refusal>
    requires { (p.at < 1024) × (p.depth ≤ 16) × (length room.now ≡ 81) }
    ensures { trail result room.now ≡ after_act (spot p room.now) stuck }
{
    if stuck {
        return Err(Refusal::Stops);
    }
    Ok(past(p).settle(room))
}

// The entry `this` is held against the record that comes next, where the entry after it is `next`. `cells` has the status of each cell.
fn follow_entry(
    p: Place,
    plan: &[u8],
    bodies: usize,
    this: usize,
    next: usize,
    cells: &mut [u8],
    room: &mut [u16],
) -> Result<Place, Refusal>
    requires { (l : List ℕ) × (i : ℕ) × Comes plan.now l bodies (moved_to (spot p room.old)) cells.old i this next }
    ensures followed { (l : List ℕ) (i : ℕ) → Comes plan.now l bodies (moved_to (spot p room.old)) cells.old i this next → Followed plan.now l bodies (trail result room.new) cells.new i }
{
    if p.at == p.end || p.at != this {
        return Err(Refusal::NoRun);
    }
    let x = record_at(plan, bodies, p.at);
    if BRANCH <= x.kind {
        return Ok(lead(unused(p), x, next, room));
    }
    // `as`, as usize::from loses that the index is the array.
    let a = x.array as usize;
    let first = room[a];
    let after_last = room[a + 1];
    let stuck = track(x, first, after_last, cells);
    after(p, stuck, room)
}

// One entry more is read: the one that waited, if one did, is held against the plan, where the run stands at p.
fn follow_next(
    p: Place,
    waiting: Option<usize>,
    plan: &[u8],
    bodies: usize,
    next: usize,
    cells: &mut [u8],
    room: &mut [u16],
) -> Result<Place, Refusal>
    requires { (read : ℕ) × Underway plan.now bodies (staged (held_at p waiting read) cells.old room.old) }
    ensures { (read : ℕ) → Underway plan.now bodies (staged (held_at p waiting read) cells.old room.old) → LedOn plan.now bodies (next ∷ []) (staged (held_at p waiting read) cells.old room.old) (staged (held_after result waiting read next) cells.new room.new) }
{
    match waiting {
        Some(this) => follow_entry(p, plan, bodies, this, next, cells, room),
        None => Ok(p),
    }
}

// The entries of a part of a log, one after another, up to the first that is refused. What changes at each of them stands apart until the end: put together at each entry it is slower.
fn follow_part(
    h: Held,
    plan: &[u8],
    bodies: usize,
    part: &[u8],
    cells: &mut [u8],
    room: &mut [u16],
) -> Held
    requires { Underway plan.now bodies (staged h cells.old room.old) × (h.read + length part.now / 2 < 2 ^ 64) }
    ensures { LedOn plan.now bodies (entries_of part.now) (staged h cells.old room.old) (staged result cells.new room.new) }
{
    let Ok(first) = h.place else {
        return h;
    };
    let mut p = first;
    let mut waiting = h.waiting;
    let mut read = h.read;
    for i in 0..part.len() / 2 {
        let next = usize::from(number_at(part, 2 * i));
        match follow_next(p, waiting, plan, bodies, next, cells, room) {
            Ok(q) => p = q,
            Err(refusal) => {
                return Held {
                    place: Err(refusal),
                    waiting,
                    read,
                };
            }
        }
        waiting = Some(next);
        read += 1;
    }
    Held {
        place: Ok(p),
        waiting,
        read,
    }
}

impl Stage {
    // Before the first entry of a log that is held against a plain plan. No plan has more cells.
    pub fn first(plan: &[u8], o: Opened) -> Stage
        requires { Opens plan.now o }
        ensures led { HaveLed plan.now [] o.offset result }
        ensures underway { Underway plan.now o.offset result × (result.read ≡ 0) }
    {
        let starts = o.array_starts;
        let mut stage = Stage {
            cells: [0u8; CELLS],
            room: [0u16; ROOM],
            place: Ok(Place::first(o.records)),
            waiting: None,
            read: 0,
        };
        put_starts(&starts, &mut stage.room);
        write_statuses(plan, usize::from(o.arrays), &mut stage.cells);
        stage
    }

    // The entries of a part of a log, one after another, up to the first that is refused.
    pub fn follow(&mut self, plan: &[u8], bodies: usize, part: &[u8])
        requires { Underway plan.now bodies self.old × (self.old.read + length part.now / 2 < 2 ^ 64) }
        ensures led { LedOn plan.now bodies (entries_of part.now) self.old self.new }
        ensures underway { Underway plan.now bodies self.new × (self.new.read ≤ self.old.read + length part.now / 2) }
    {
        let h = Held {
            place: self.place,
            waiting: self.waiting,
            read: self.read,
        };
        let n = follow_part(h, plan, bodies, part, &mut self.cells, &mut self.room);
        self.place = n.place;
        self.waiting = n.waiting;
        self.read = n.read;
    }

    // What is said of the entries that are read. One more, whichever it is, has the last of them held against the plan.
    fn end(&mut self, plan: &[u8], bodies: usize) -> Logged
        requires { Underway plan.now bodies self.old × (self.old.read + 1 < 2 ^ 64) }
        ensures { (l : List ℕ) → HaveLed plan.now l bodies self.old → Says plan.now l result }
    {
        self.follow(plan, bodies, &[0u8; 2]);
        match self.place {
            Ok(_) => unplaced(Ok(())),
            Err(refusal) => Logged {
                verdict: Err(Fault::Refused(refusal.number(), 0)),
                entry: self.read - 1,
            },
        }
    }

    // The same of a stage that is kept.
    pub fn conclude(self, plan: &[u8], bodies: usize) -> Logged
        requires { Underway plan.now bodies self × (self.read + 1 < 2 ^ 64) }
        ensures { (l : List ℕ) → HaveLed plan.now l bodies self → Says plan.now l result }
    {
        let mut n = self;
        n.end(plan, bodies)
    }
}

// A log held against an opened plain plan.
fn hold(plan: &[u8], o: Opened, log: &[u8]) -> Logged
    requires { Opens plan.now o }
    ensures { Says plan.now (entries_of log.now) result }
{
    let bodies = usize::from(o.offset);
    let mut stage = Stage::first(plan, o);
    stage.follow(plan, bodies, log);
    stage.end(plan, bodies)
}

// The plain plan over which a log is followed, of which nothing is known but whether its length is odd; or why it is not.
#[tactic(auto, using(crate::proofs::Rows::rows_unopened, crate::proofs::Rows::rows_declared, crate::proofs::Rows::rows_odd, crate::proofs::Rows::rows_none))]
pub fn plan_to_follow(o: Result<Opened, Fault>, odd: bool) -> Result<Opened, Fault>
    ensures { (f : List ℕ) → o ≡ opened f → result ≡ where_accepted (answer_of (log_rows f odd)) (found f) }
{
    let o = o?;
    if o.kind != PLAIN {
        return Err(Fault::Refused(11, 0));
    }
    if odd {
        return Err(Fault::Refused(29, 0));
    }
    Ok(o)
}

// A log held against a plan file that opening has found to be o.
pub fn log_opened(plan: &[u8], o: Result<Opened, Fault>, log: &[u8]) -> Logged
    requires { o ≡ opened plan.now }
    ensures { Answers plan.now log.now result }
{
    match plan_to_follow(o, log.len() % 2 == 1) {
        Ok(o) => hold(plan, o, log),
        Err(fault) => unplaced(Err(fault)),
    }
}

// A log of any bytes held against a plan file of any bytes.
pub fn log(plan: &[u8], log: &[u8]) -> Logged
    ensures { Answers plan.now log.now result }
{
    log_opened(plan, format::open(plan), log)
}
