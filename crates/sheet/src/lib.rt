// Exercise sheets: how many of the short sequences over one cell stop at each place, and how many pass.
#![tactic(auto)]

ghost use Rattle.std.specs.Prelude.{◌≡◌, ◌+◌, ◌*◌, ◌^◌, ◌≤◌, ◌<◌, length};
ghost use Rattle.sheet.specs.Sheets.{sheet_answer, sheet_figures};

use model::{Fault, Verdict};

// The longest sequences of a sheet.
pub const LONGEST: u64 = 24;

// The figures of their sheet.
pub const FIGURES: usize = 25;

// Of the sequences so far that pass: how many leave the cell current on one side, and how many on both.
#[derive(Clone, Copy)]
struct Passed {
    one: u64,
    both: u64,
}

impl Passed {
    // The same with an operation more. Current on one side: its read and both writes leave it so, the copy from it leaves both, and the other
    // two stop. Current on both sides: each write leaves one, the other four leave both, and none stops.
    fn with_operation(self) -> Passed
        requires { self.one + self.both ≤ 6 ^ 23 }
        ensures { (result.one ≡ 3 * self.one + 2 * self.both) × (result.both ≡ self.one + 4 * self.both) }
    {
        Passed {
            one: 3 * self.one + 2 * self.both,
            both: self.one + 4 * self.both,
        }
    }
}

// Puts the figures of the sequences of length n over the first of the lent ones: for each record r, which is place r + 1, those that stop there, and
// last those that pass.
fn put_sheet(n: usize, figures: &mut [u64])
    requires { (n ≤ 24) × (n < length figures.old) }
    ensures { figures.new ≡ sheet_figures n figures.old }
{
    let mut passed = Passed { one: 1, both: 0 };
    // In how many ways a sequence goes on.
    let mut rest = 6u64.pow(n as u32);
    for r in 0..n {
        rest /= 6;
        figures[r] = 2 * passed.one * rest;
        passed = passed.with_operation();
    }
    figures[n] = passed.one + passed.both;
}

// Of the 6^n sequences of length n: how many stop at place 1, and so on to n, and last how many pass. 38 where n is above 24.
#[tactic(auto, using(crate::proofs::Filling::above, crate::proofs::Filling::above_kept, crate::proofs::Filling::up_to))]
pub fn sheet(n: u64, figures: &mut [u64; FIGURES]) -> Verdict
    ensures answer { result ≡ sheet_answer n }
    ensures output { figures.new ≡ sheet_figures n figures.old }
{
    if LONGEST < n {
        return Err(Fault::Refused(38, 0));
    }
    put_sheet(n as usize, figures);
    Ok(())
}
