// The cells that every way through a pass writes, marked in a set.
#![tactic(auto)]

ghost use Rattle.std.specs.Prelude.{◌≡◌, ◌&&◌, ℕ, ◌+◌, ◌-◌, ◌≤◌, ◌<◌, length, get_or};
ghost use Rattle.model.specs.Records.{stepped};
ghost use Rattle.reading.specs.Inner.Places.{Inside};
ghost use Rattle.format.specs.Inner.Walks.{Walkable};
ghost use Rattle.marks.specs.Inner.Marks.{marked, Adds, all_marked, Tables, hits, always, met};

use reading::kinds::{BRANCH, CELLS, FIXED, NAMES, STARTS, W, WRITE};
use reading::{Fields, Span, cells_of, first_arm, record_at, second_arm};

// What a pass declares of an array: the kind of the declaration and its side.
#[derive(Clone, Copy)]
pub struct Declaration {
    pub kind: u8,
    pub side: u8,
}

// What a pass declares of each array.
pub type Declared = [Option<Declaration>; NAMES];

// Marks the cells from `from` up to `end`.
fn mark_range(set: &mut [bool; CELLS], from: usize, end: usize)
    requires { (length set.old ≡ 4096) × (end ≤ 4096) }
    ensures { Adds set.old set.new (stepped 1 from end) }
{
    if from < end {
        set[from..end].fill(true);
    }
}

// Marks the cells of a record with a step.
fn mark_steps(set: &mut [bool; CELLS], cells: Span)
    requires { (length set.old ≡ 4096) × (cells.to ≤ 4096) × (1 ≤ cells.step) × (cells.step < 256) }
    ensures { Adds set.old set.new (stepped cells.step cells.from cells.to) }
{
    for c in (cells.from..cells.to).step_by(cells.step) {
        set[c] = true;
    }
}

// Marks the cells of a record. Without a step a loop of its own takes them many at a time.
#[tactic(auto, using(crate::proofs::Marks::by_ones))]
pub fn mark(set: &mut [bool; CELLS], cells: Span)
    requires { (length set.old ≡ 4096) × (cells.to ≤ 4096) × (1 ≤ cells.step) × (cells.step < 256) }
    ensures { Adds set.old set.new (stepped cells.step cells.from cells.to) }
{
    if cells.step <= 1 {
        mark_range(set, cells.from, cells.to);
    } else {
        mark_steps(set, cells);
    }
}

// Marks the cells that two sets have both.
pub fn mark_both(set: &mut [bool; CELLS], one: &[bool; CELLS], two: &[bool; CELLS])
    requires { length set.old ≡ 4096 }
    ensures { Adds set.old set.new (λ (c : ℕ). marked one.now c && marked two.now c) }
{
    for (c, cell) in set.iter_mut().enumerate() {
        *cell |= one[c] & two[c];
    }
}

// Marks the cells of a write with the fields x, if its array is declared on its side; of another record none.
pub fn mark_record(starts: &[u16; STARTS], declared: &Declared, set: &mut [bool; CELLS], x: Fields)
    requires { (length set.old ≡ 4096) × (x.kind ≡ 2 → (x.array < 32) × (get_or starts.now x.array 0 + x.q ≤ 4096)) }
    ensures { Adds set.old set.new (hits starts.now declared.now x) }
{
    if x.kind != WRITE {
        return;
    }
    let Some(d) = declared[usize::from(x.array)] else {
        return;
    };
    if x.side == d.side {
        mark(set, cells_of(x, starts));
    }
}

// Marks the cells that every way through the records r up to `end` writes.
pub fn mark_written(
    plan: &[u8],
    bodies: usize,
    starts: &[u16; STARTS],
    declared: &Declared,
    set: &mut [bool; CELLS],
    r: usize,
    end: usize,
)
    requires { (length set.old ≡ 4096) × Tables plan.now starts.now declared.now × (r ≤ end) × (end ≤ 1024) × Inside plan.now bodies end × Walkable plan.now r end }
    ensures { Adds set.old set.new (always plan.now declared.now r end) }
{
    let mut at = r;
    // Not a range: a step is a record with its arms.
    while at < end {
        let x = record_at(plan, bodies, at);
        let second = at + 1 + first_arm(x);
        let next = second + second_arm(x);
        if x.kind == BRANCH {
            let mut one = [false; CELLS];
            let mut two = [false; CELLS];
            mark_written(plan, bodies, starts, declared, &mut one, at + 1, second);
            mark_written(plan, bodies, starts, declared, &mut two, second, next);
            mark_both(set, &one, &two);
        } else if x.kind == FIXED {
            mark_written(plan, bodies, starts, declared, set, at + 1, second);
        } else {
            mark_record(starts, declared, set, x);
        }
        at = next;
    }
}

// Whether all cells from `from` up to `end` are marked.
pub fn all_marked(set: &[bool; CELLS], from: usize, end: usize) -> bool
    requires { end ≤ 4096 }
    ensures { result ≡ all_marked set.now from (end - from) }
{
    from >= end || set[from..end].iter().all(|marked| *marked)
}

// Whether a declaration with the fields x is met where the marked cells are written: a W is if all cells of its array are marked.
pub fn met(starts: &[u16; STARTS], set: &[bool; CELLS], x: Fields) -> bool
    requires { (x.array < 32) × (get_or starts.now x.array 0 ≤ get_or starts.now (x.array + 1) 0) × (get_or starts.now (x.array + 1) 0 ≤ 4096) }
    ensures { result ≡ met starts.now set.now x }
{
    if x.kind != W {
        return true;
    }
    let a = x.array as usize;
    let from = starts[a] as usize;
    let end = starts[a + 1] as usize;
    all_marked(set, from, end)
}
