// Reading a plan file: its bytes, its numbers of two bytes, the fields of a record.
#![tactic(auto)]

ghost use Rattle.std.specs.Prelude.{◌≡◌, ◌+◌, ◌*◌, ◌≤◌, ◌<◌, length, get_or, eqb, leb};
ghost use Rattle.reading.specs.Bytes.{byte_at, u16_at, length_at, scratch_at, entry_at, bodies_at, fields_at, between, nests, first_arm, second_arm, turns_of};
ghost use Rattle.reading.specs.Kinds.{number_of};
ghost use Rattle.reading.specs.Inner.Cells.{from_of, to_of, step_of};

use kinds::{Kind, SCRATCH, STARTS};

pub mod kinds;

// A record's eight bytes.
#[derive(Clone, Copy)]
pub struct Fields {
    pub kind: u8,
    pub side: u8,
    pub array: u8,
    pub step: u8,
    pub p: u16,
    pub q: u16,
}

impl Fields {
    // Whether it is of this kind.
    pub fn is(self, kind: Kind) -> bool
        ensures { result ≡ eqb self.kind (number_of kind) }
    {
        self.kind == kind as u8
    }

    // Whether its kind is at most 3: of a record that is allowed, whether its cells are P up to Q of the array.
    pub fn names_cells(self) -> bool
        ensures { result ≡ leb self.kind 3 }
    {
        self.kind <= Kind::Copy as u8
    }

    // Whether its kind is at most 5: of a record that is allowed, whether it acts on cells, and has neither arms nor a body nor calls one.
    pub fn acts(self) -> bool
        ensures { result ≡ leb self.kind 5 }
    {
        self.kind <= Kind::Mark as u8
    }

    // Whether it declares how a pass uses an array.
    pub fn declares(self) -> bool
        ensures { result ≡ between 16 18 self.kind }
    {
        self.is(Kind::R) | self.is(Kind::W) | self.is(Kind::RW)
    }
}

// The byte at a place, zero past the end.
pub fn byte(s: &[u8], at: usize) -> u8
    ensures { result ≡ byte_at s.now at }
{
    s.get(at).copied().unwrap_or(0)
}

// A byte of the header, in a plan that has its contents.
#[tactic(auto, unfolding(crate::specs::Bytes::entry_at))]
pub fn header_byte(plan: &[u8], at: usize) -> u8
    requires { (at < 4) × (bodies_at plan.now ≤ length plan.now) }
    ensures { result ≡ byte_at plan.now at }
{
    plan[at]
}

// Where the entry of a body stands in the contents; the bodies begin where the entry after the last would.
#[tactic(auto, unfolding(crate::specs::Bytes::entry_at))]
pub fn entry_at(plan: &[u8], body: usize) -> usize
    requires { body < 256 }
    ensures place { result ≡ entry_at plan.now body }
    ensures low { result < 2048 }
{
    4 + 2 * usize::from(byte(plan, 1)) + 4 * body
}

// The number of two bytes at a place inside the plan, the low byte first.
#[tactic(auto, unfolding(crate::specs::Bytes::u16_at))]
pub fn number_at(plan: &[u8], at: usize) -> u16
    requires { at + 2 ≤ length plan.now }
    ensures { result ≡ u16_at plan.now at }
{
    u16::from_le_bytes([plan[at], plan[at + 1]])
}

// The length of an array whose entry stands inside the plan: without the bit that marks scratch.
#[tactic(auto, unfolding(crate::specs::Bytes::length_at))]
pub fn length_at(plan: &[u8], a: usize) -> u16
    requires { 4 + 2 * a + 2 ≤ length plan.now }
    ensures { result ≡ length_at plan.now a }
{
    number_at(plan, 4 + 2 * a) % SCRATCH
}

// Whether that array is scratch.
#[tactic(auto, unfolding(crate::specs::Bytes::scratch_at))]
pub fn scratch_at(plan: &[u8], a: usize) -> bool
    requires { 4 + 2 * a + 2 ≤ length plan.now }
    ensures { result ≡ scratch_at plan.now a }
{
    SCRATCH <= number_at(plan, 4 + 2 * a)
}

// The fields of record r, which stands inside a plan whose bodies begin at `bodies`.
#[tactic(auto, unfolding(crate::specs::Bytes::fields_at))]
pub fn record_at(plan: &[u8], bodies: usize, r: usize) -> Fields
    requires { (bodies ≡ bodies_at plan.now) × (bodies + 8 * r + 8 ≤ length plan.now) }
    ensures { result ≡ fields_at plan.now r }
{
    let at = bodies + 8 * r;
    Fields {
        kind: plan[at],
        side: plan[at + 1],
        array: plan[at + 2],
        step: plan[at + 3],
        p: number_at(plan, at + 4),
        q: number_at(plan, at + 6),
    }
}

// Whether a record has arms or a body: a branch, a loop, a fixed loop.
pub fn nests(x: Fields) -> bool
    ensures { result ≡ nests x }
{
    x.is(Kind::Branch) | x.is(Kind::Loop) | x.is(Kind::Fixed)
}

// How many records the first arm has, none where the kind has no such arm.
#[tactic(auto, unfolding(crate::specs::Bytes::first_arm))]
pub fn first_arm(x: Fields) -> usize
    ensures arm { result ≡ first_arm x }
    ensures low { result < 65536 }
{
    if nests(x) { usize::from(x.p) } else { 0 }
}

// How many records the second arm has.
#[tactic(auto, unfolding(crate::specs::Bytes::second_arm))]
pub fn second_arm(x: Fields) -> usize
    ensures arm { result ≡ second_arm x }
    ensures low { result < 65536 }
{
    if x.is(Kind::Branch) {
        usize::from(x.q)
    } else {
        0
    }
}

// How many turns a fixed loop has; any other record counts 1.
#[tactic(auto, unfolding(crate::specs::Bytes::turns_of))]
pub fn turns_of(x: Fields) -> usize
    ensures turns { result ≡ turns_of x }
    ensures low { result < 65536 }
{
    if x.is(Kind::Fixed) {
        usize::from(x.q)
    } else {
        1
    }
}

// The cells of a record: the first, the one after the last, and how far apart they are.
#[derive(Clone, Copy)]
pub struct Span {
    pub from: usize,
    pub to: usize,
    pub step: usize,
}

// The first cell of a record with the fields x, whose array begins at cell `first`: P for kinds 1 to 3, else the array's first.
pub fn first_cell(x: Fields, first: u16) -> usize
    ensures { result ≡ from_of x first }
{
    let at = if x.names_cells() { x.p } else { 0 };
    usize::from(first) + usize::from(at)
}

// The cell after its last, where the array ends before cell `next`.
pub fn next_cell(x: Fields, first: u16, next: u16) -> usize
    ensures { result ≡ to_of x first next }
{
    if x.names_cells() {
        usize::from(first) + usize::from(x.q)
    } else {
        usize::from(next)
    }
}

// How far apart its cells are.
pub fn step_of(x: Fields) -> usize
    ensures step { result ≡ step_of x }
    ensures low { (1 ≤ result) × (result < 256) }
{
    if x.names_cells() {
        usize::from(x.step.max(1))
    } else {
        1
    }
}

// Which cells a record with the fields x covers. `starts` has the first cell of each array, and after the last array the number of cells.
pub fn cells_of(x: Fields, starts: &[u16; STARTS]) -> Span
    requires { x.array < 32 }
    ensures from { result.from ≡ from_of x (get_or starts.now x.array 0) }
    ensures to { result.to ≡ to_of x (get_or starts.now x.array 0) (get_or starts.now (x.array + 1) 0) }
    ensures step { result.step ≡ step_of x }
{
    let a = usize::from(x.array);
    let first = starts[a];
    let next = starts[a + 1];
    Span {
        from: first_cell(x, first),
        to: next_cell(x, first, next),
        step: step_of(x),
    }
}
