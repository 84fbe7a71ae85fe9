// What one record does to a cell that it covers: to a status, and to a set of them.
ghost use Rattle.std.specs.Prelude.{◌≡◌, false, not, ◌≤◌, ◌<◌};
ghost use Rattle.model.specs.Inner.Statuses.{Status, at_start};
ghost use Rattle.format.specs.Plans.{side_of, verb_of};
ghost use Rattle.statuses.specs.Inner.Sets.{statuses, index, In, touched_met, touched_after};
ghost use Rattle.statuses.specs.Inner.Ran.{Ran};

use crate::sets::Statuses;
use crate::stops::Lowest;
use model::Record;

// The status of a cell at the start: host copy current, host flag set; of scratch neither copy current, no flag set.
pub fn start_of(scratch: bool) -> usize
    ensures { (result < statuses) × (result ≡ index (at_start scratch)) }
{
    if scratch { 0 } else { 10 }
}

// The statuses that can be reached, and the lowest record at which the cell can stop, if there is one.
#[derive(Clone, Copy)]
pub struct Found {
    pub set: Statuses,
    pub low: Lowest,
}

// The status after a record that covers the cell: a row for each kind from 1 and side, and in it four bits for each status before.
// One number a row: as an array of arrays the table has 16 numbers in place of each, and reads no plainer.
const AFTER: [u64; 10] = [
    0xfedcba9876543210,
    0xfedcba9876543210,
    0xba98ba98ba98ba98,
    0x7654765476547654,
    0xfedc3210fedc3210,
    0xfedcfedc32103210,
    0xfeffba3376ff3233,
    0xffdfbf9f73533313,
    0xeeeeaaaa66662222,
    0xdddd999955551111,
];

// The statuses in which such a record stops, a bit for each.
const UNMET: [u16; 10] = [0x00ff, 0x0f0f, 0, 0, 0x0f0f, 0x00ff, 0x0303, 0x0055, 0, 0];

// The status after a record, and whether the record stops the cell.
#[derive(Clone, Copy)]
pub struct Step {
    pub after: usize,
    pub stops: bool,
}

// A record of this kind, 1 to 5, on this side, and a status of a cell that it covers.
fn leaf(kind: u8, side: u8, w: usize) -> Step
    requires { (1 ≤ kind) × (kind ≤ 5) × (side ≤ 1) × (w < statuses) }
    ensures low { result.after < statuses }
    ensures step { (u : Status) → index u ≡ w → (index (touched_after (verb_of kind) (side_of side) u) ≡ result.after) × (not (touched_met (verb_of kind) (side_of side) u) ≡ result.stops) }
{
    let row = 2 * (kind as usize - 1) + side as usize;
    Step {
        after: ((AFTER[row] >> (4 * w)) % 16) as usize,
        stops: (UNMET[row] >> w) % 2 == 1,
    }
}

impl Found {
    // Record k of this kind, 1 to 5, on this side, and each status of a cell that it covers.
    pub fn acted(self, kind: u8, side: u8, k: Record) -> Found
        requires { (1 ≤ kind) × (kind ≤ 5) × (side ≤ 1) × (k.0 < 65535) }
        ensures { Ran (λ u v. touched_after (verb_of kind) (side_of side) u ≡ v) (λ u n. (k.0 ≡ n) × (touched_met (verb_of kind) (side_of side) u ≡ false)) (In self.set) self.low result }
    {
        let mut set = Statuses::EMPTY;
        let mut stops = false;
        for w in self.set.members() {
            let s = leaf(kind, side, w);
            set = Statuses::only(s.after).union(set);
            stops = s.stops | stops;
        }
        let low = self.low.lowered(stops, k);
        Found { set, low }
    }
}
