// Where a run stands in a plan: the record, and the arms that hold it.
#![tactic(auto)]

ghost use Rattle.std.specs.Prelude.{◌≡◌, List, ℕ, ◌+◌, ◌≤◌, ◌<◌, length};
ghost use Rattle.reading.specs.Bytes.{first_arm, second_arm};
ghost use Rattle.places.specs.Inner.Places.{spot, started, entered, skipped, into, left_arm, settled, chosen, begun_at, turned};

use reading::kinds::BRANCH;
use reading::{Fields, first_arm, second_arm};

// What is lent to the step besides the memories: entry a is the first cell of array a, and after the last array the number of cells; entry ENDS + d is the
// end of what holds an arm at depth d, entry BACKS + d where the run goes on in it after the arm, entry TURNS + d how many turns have begun of the fixed
// loop at hand there.
pub const ROOM: usize = 81;

const ENDS: usize = 33;

const BACKS: usize = 49;

const TURNS: usize = 65;

// Record `at` of an arm or body that ends before record `end`, `depth` arms deep; how many choices are used. Whole words: parts of one are put together anew at each step.
#[derive(Clone, Copy)]
pub struct Place {
    pub at: usize,
    pub end: usize,
    pub depth: usize,
    pub used: usize,
}

impl Place {
    // The first record of a body.
    pub fn first(records: u16) -> Place
        ensures { result ≡ started records }
    {
        Place {
            at: 0,
            end: usize::from(records),
            depth: 0,
            used: 0,
        }
    }

    // Into an arm, after which the run goes on at record `back`.
    fn enter(self, at: usize, end: usize, back: usize, room: &mut [u16]) -> Place
        requires { (self.depth < 16) × (length room.old ≡ 81) × (self.end < 65536) × (back < 65536) }
        ensures { spot result room.new ≡ entered (spot self room.old) at end back }
    {
        room[ENDS + self.depth] = self.end as u16;
        room[BACKS + self.depth] = back as u16;
        Place {
            at,
            end,
            depth: self.depth + 1,
            ..self
        }
    }

    // Past a loop.
    fn skip(self, at: usize) -> Place
        ensures { (room : List ℕ) → spot result room ≡ skipped (spot self room) at }
    {
        Place { at, ..self }
    }

    // Into an arm; an empty one is passed over.
    fn into_arm(self, at: usize, end: usize, back: usize, room: &mut [u16]) -> Place
        requires { (self.depth < 16) × (length room.old ≡ 81) × (self.end < 65536) × (back < 65536) }
        ensures { spot result room.new ≡ into (spot self room.old) at end back }
    {
        if at == end {
            return self.skip(back);
        }
        self.enter(at, end, back, room)
    }

    // Out of an arm.
    fn leave(self, room: &[u16]) -> Place
        requires { (0 < self.depth) × (self.depth ≤ 16) × (length room.now ≡ 81) }
        ensures { spot result room.now ≡ left_arm (spot self room.now) }
    {
        let depth = self.depth - 1;
        Place {
            at: usize::from(room[BACKS + depth]),
            end: usize::from(room[ENDS + depth]),
            depth,
            ..self
        }
    }

    // Out of every arm that ends here.
    pub fn settle(self, room: &[u16]) -> Place
        requires { (self.depth ≤ 16) × (length room.now ≡ 81) }
        ensures { spot result room.now ≡ settled (spot self room.now) }
    {
        let mut q = self;
        while (q.at == q.end) & (0 < q.depth) {
            q = q.leave(room);
        }
        q
    }

    // Where a branch or a test of a loop with the fields x leads on a choice.
    pub fn choose(self, x: Fields, choice: u8, room: &mut [u16]) -> Place
        requires { (self.depth < 16) × (self.used < 65536) × (length room.old ≡ 81) × (self.end < 65536) × (self.at + 1 + first_arm x + second_arm x < 65536) }
        ensures { spot result room.new ≡ chosen (spot self room.old) x choice }
    {
        let at = self.at;
        let second = at + 1 + first_arm(x);
        let next = second + second_arm(x);
        let q = Place {
            used: self.used + 1,
            ..self
        };
        if x.kind == BRANCH {
            if choice == 0 {
                return q.into_arm(second, next, next, room);
            }
            return q.into_arm(at + 1, second, next, room);
        }
        if choice == 0 {
            return q.skip(next);
        }
        q.into_arm(at + 1, second, at, room)
    }

    // A turn of a fixed loop with the fields x begins.
    #[tactic(auto, unfolding(crate::specs::Inner::Places::turned))]
    pub fn turn(self, x: Fields, room: &mut [u16]) -> Place
        requires { (self.depth < 16) × (length room.old ≡ 81) × (self.end < 65536) × (self.at + 1 + first_arm x < 65536) × (begun_at room.old self.depth < x.q) }
        ensures { spot result room.new ≡ turned (spot self room.old) x }
    {
        let at = self.at;
        let second = at + 1 + first_arm(x);
        let here = TURNS + self.depth;
        let n = room[here];
        if x.q - n == 1 {
            room[here] = 0;
            return self.into_arm(at + 1, second, second, room);
        }
        room[here] = n + 1;
        self.into_arm(at + 1, second, at, room)
    }
}
