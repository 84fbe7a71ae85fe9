// The records that concern a cell: those that cover it, and the branches and loops that hold one which does. A walk for the cell passes all others by.
#![tactic(auto)]

ghost use Rattle.std.specs.Prelude.{◌≡◌, ◌<◌, length};
ghost use Rattle.model.specs.Records.{distance, stepped};
ghost use Rattle.reading.specs.Bytes.{record_count, fields_at};
ghost use Rattle.format.specs.Inner.Walks.{Plain};
ghost use Rattle.lookahead.specs.Inner.Ahead.{covers, nearest, IsPlain, Ahead};

use model::Array;
use reading::kinds::{BRANCH, NEED};
use reading::{Fields, first_arm, record_at, second_arm};

// An opened plain plan: its file, where its bodies begin, and how many records it has.
#[derive(Clone, Copy)]
pub struct PlainPlan<'a> {
    pub file: &'a [u8],
    pub bodies: usize,
    pub records: usize,
}

impl<'a> PlainPlan<'a> {
    // The fields of record r.
    pub fn record(&self, r: usize) -> Fields
        requires { Plain self.now.file.now self.now.bodies × (r < record_count self.now.file.now) }
        ensures { result ≡ fields_at self.now.file.now r }
    {
        record_at(self.file, self.bodies, r)
    }
}

// Whether a record's step leads from P to `offset`, below Q.
fn steps_on(x: Fields, offset: usize) -> bool
    ensures { result ≡ stepped (distance x.step) x.p x.q offset }
{
    let p = x.p as usize;
    // In 32 bits: a remainder of 64 bits takes several times as long.
    p <= offset
        && offset < x.q as usize
        && (x.step <= 1 || ((offset - p) as u32) % (x.step as u32) == 0)
}

// A cell, by its array and its place there.
#[derive(Clone, Copy)]
pub struct Spot {
    pub array: Array,
    pub offset: usize,
}

impl Spot {
    // Whether a record of kind 1 to 5 covers the cell.
    #[tactic(auto, unfolding(crate::specs::Inner::Ahead::covers))]
    fn is_covered(self, x: Fields) -> bool
        ensures { result ≡ covers x self.array.0 self.offset }
    {
        self.array.0 == x.array as u16 && (NEED <= x.kind || steps_on(x, self.offset))
    }

    // The first record from r on that concerns the cell, where `next` is the first one after r.
    fn nearest(self, x: Fields, r: usize, next: usize) -> usize
        requires { r < 65536 }
        ensures { result ≡ nearest x self.array.0 self.offset r next }
    {
        // Each kind has its own answer: with one condition over both, the choice is a jump where it need be none.
        if BRANCH <= x.kind {
            return if next < r + 1 + first_arm(x) + second_arm(x) {
                r
            } else {
                next
            };
        }
        if self.is_covered(x) { r } else { next }
    }

    // Fills in the table for the cell, from the last record to the first. Where no record is left that concerns it, the entry is the number of the records.
    pub fn look_ahead(self, plan: PlainPlan<'_>, ahead: &mut [usize])
        requires { IsPlain plan × (record_count plan.file.now < length ahead.old) }
        ensures { Ahead plan.entry.file.now self.array.0 self.offset 0 ahead.new }
    {
        ahead[plan.records] = plan.records;
        let mut next = plan.records;
        for r in (0..plan.records).rev() {
            next = self.nearest(plan.record(r), r, next);
            ahead[r] = next;
        }
    }
}
