// The ways of one cell through a block of an opened plain plan. For each loop and each status with which its body is entered,
// the exits of the body are computed once and kept in a row, with the class of the cell: rows of earlier classes need not be cleared.
#![tactic(auto)]

ghost use Rattle.std.specs.Prelude.{◌≡◌, false, ◌+◌, ◌-◌, ◌%◌, ◌≤◌, ◌<◌};
ghost use Rattle.model.specs.Blocks.{done, loop, fixed};
ghost use Rattle.reading.specs.Bytes.{record_count};
ghost use Rattle.format.specs.Inner.Walks.{Walkable, block_between};
ghost use Rattle.statuses.specs.Inner.Sets.{statuses, index, In};
ghost use Rattle.summary.specs.Inner.Ways.{Ready, Body, nest, Walked};

use lookahead::PlainPlan;
use model::Record;
use reading::kinds::{BRANCH, FIXED};
use reading::{Fields, first_arm, second_arm};
use statuses::acts::Found;
use statuses::sets::Statuses;
use statuses::stops::Lowest;

// The exits of a loop's body from one status, as a walk for this class of cells found them.
#[derive(Clone, Copy)]
pub struct Row {
    pub class: u16,
    pub exits: Statuses,
}

impl Row {
    // A row that no walk has found: no class has the number 0.
    pub const BLANK: Row = Row {
        class: 0,
        exits: Statuses::EMPTY,
    };
}

// The first arm of the branch or loop at record r: the records up to `second`.
#[derive(Clone, Copy)]
pub struct Arm {
    pub r: usize,
    pub second: usize,
}

// The walk of one cell: the plan, the records that concern the cell, and the class of the cell.
#[derive(Clone, Copy)]
pub struct Walk<'a> {
    pub plan: PlainPlan<'a>,
    pub ahead: &'a [usize],
    pub class: u16,
}

// How many turns are done after turn i: where the sets repeat every second turn, an even number of those that are left is passed over.
fn passed_over(turns: usize, i: usize, again: bool) -> usize
    requires { i ≤ turns }
    ensures { (i ≤ result) × (result ≤ turns) × ((result - i) % 2 ≡ 0) × (again ≡ false → result ≡ i) }
{
    if again {
        return turns - (turns - i) % 2;
    }
    i
}

impl<'a> Walk<'a> {
    // The body of loop `arm.r`, from status w.
    #[cycle(block_fixed_nested_row_of_turn_turned)]
    fn row_of(&self, rows: &mut [Row], arm: Arm, w: usize, low: Lowest) -> Found
        requires { Ready self.now rows.old low × Body self.now.plan.file.now arm × (w < statuses) }
        ensures { Walked self.now (block_between self.now.plan.file.now (arm.r + 1) arm.second) (λ u. index u ≡ w) low rows.new result }
    {
        let at = 16 * arm.r + w;
        let known = rows[at];
        if known.class == self.class {
            return Found {
                set: known.exits,
                low,
            };
        }
        let begun = Found {
            set: Statuses::only(w),
            low,
        };
        let t = self.block(rows, arm.r + 1, arm.second, begun);
        rows[at] = Row {
            class: self.class,
            exits: t.set,
        };
        t
    }

    // Any number of turns of loop `arm.r`: the statuses to look at, until none is new.
    #[cycle(block_fixed_nested_row_of_turn_turned)]
    fn turned(&self, rows: &mut [Row], arm: Arm, begun: Found) -> Found
        requires { Ready self.now rows.old begun.low × Body self.now.plan.file.now arm }
        ensures { Walked self.now (loop arm.r (block_between self.now.plan.file.now (arm.r + 1) arm.second) done) (In begun.set) begun.low rows.new result }
    {
        let mut t = begun;
        let mut looked = Statuses::EMPTY;
        let mut todo = begun.set;
        while let Some(w) = todo.lowest() {
            let row = self.row_of(rows, arm, w, t.low);
            t = Found {
                set: t.set.union(row.set),
                low: row.low,
            };
            looked = looked.with(w);
            todo = t.set.without(looked);
        }
        t
    }

    // One turn of loop `arm.r` from each status of a set, by the rows.
    #[cycle(block_fixed_nested_row_of_turn_turned)]
    fn turn(&self, rows: &mut [Row], arm: Arm, begun: Found) -> Found
        requires { Ready self.now rows.old begun.low × Body self.now.plan.file.now arm }
        ensures { Walked self.now (block_between self.now.plan.file.now (arm.r + 1) arm.second) (In begun.set) begun.low rows.new result }
    {
        let mut t = Found {
            set: Statuses::EMPTY,
            low: begun.low,
        };
        for w in begun.set.members() {
            let row = self.row_of(rows, arm, w, t.low);
            t = Found {
                set: t.set.union(row.set),
                low: row.low,
            };
        }
        t
    }

    // So many turns, 1 or more, of fixed loop `arm.r`. The sets may repeat, each turn or every second turn: then two turns more change nothing.
    #[cycle(block_fixed_nested_row_of_turn_turned)]
    fn fixed(&self, rows: &mut [Row], arm: Arm, turns: usize, begun: Found) -> Found
        requires { Ready self.now rows.old begun.low × Body self.now.plan.file.now arm × (1 ≤ turns) }
        ensures { Walked self.now (fixed arm.r (turns - 1) (block_between self.now.plan.file.now (arm.r + 1) arm.second) done) (In begun.set) begun.low rows.new result }
    {
        let mut t = begun;
        let mut before = Statuses::EMPTY;
        let mut i: usize = 0;
        // No range: turns are passed over.
        while i < turns {
            let last = t.set;
            t = self.turn(rows, arm, t);
            let set = t.set;
            let again = (0 < i) & (set == before);
            i = passed_over(turns, i + 1, again);
            before = last;
        }
        t
    }

    // A branch, a loop or a fixed loop with the fields x at record `arm.r`, whose second arm is the records up to `next`.
    #[cycle(block_fixed_nested_row_of_turn_turned)]
    fn nested(&self, rows: &mut [Row], x: Fields, arm: Arm, next: usize, begun: Found) -> Found
        requires { Ready self.now rows.old begun.low × Body self.now.plan.file.now arm × (arm.second ≤ next) × (next ≤ record_count self.now.plan.file.now) × Walkable self.now.plan.file.now arm.second next × (x.kind ≡ 9 → 1 ≤ x.q) }
        ensures { Walked self.now (nest x arm.r (block_between self.now.plan.file.now (arm.r + 1) arm.second) (block_between self.now.plan.file.now arm.second next)) (In begun.set) begun.low rows.new result }
    {
        if x.kind == BRANCH {
            let set = begun.set;
            let one = self.block(rows, arm.r + 1, arm.second, begun);
            let low = one.low;
            let two = self.block(rows, arm.second, next, Found { set, low });
            return Found {
                set: one.set.union(two.set),
                low: two.low,
            };
        }
        if x.kind == FIXED {
            return self.fixed(rows, arm, x.q as usize, begun);
        }
        self.turned(rows, arm, begun)
    }

    // The records from `from` up to `end`: those that concern the cell, one after the other.
    #[cycle(block_fixed_nested_row_of_turn_turned)]
    pub fn block(&self, rows: &mut [Row], from: usize, end: usize, begun: Found) -> Found
        requires { Ready self.now rows.old begun.low × (from ≤ end) × (end ≤ record_count self.now.plan.file.now) × Walkable self.now.plan.file.now from end }
        ensures { Walked self.now (block_between self.now.plan.file.now from end) (In begun.set) begun.low rows.new result }
    {
        let mut t = begun;
        let mut at = from;
        loop {
            let r = self.ahead[at];
            if end <= r {
                return t;
            }
            let x = self.plan.record(r);
            if BRANCH <= x.kind {
                let second = r + 1 + first_arm(x);
                at = second + second_arm(x);
                t = self.nested(rows, x, Arm { r, second }, at, t);
            } else {
                t = t.acted(x.kind, x.side, Record(r as u16));
                at = r + 1;
            }
        }
    }
}
