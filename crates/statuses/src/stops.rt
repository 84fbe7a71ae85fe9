// The lowest record at which a cell can stop, if there is one: only this file knows how it is stored.
ghost use Rattle.std.specs.Prelude.{◌≡◌, ◌⊎◌, true, ◌≤◌, Some};
ghost use Rattle.statuses.specs.Inner.Sets.{number_of};

use model::Record;
use std::marker::Model;

// One number, 65535 for none, where an Option has two: what a walk finds then comes back in registers.
#[derive(Clone, Copy)]
pub struct Lowest {
    number: u16,
}

impl Model for Lowest {
    ghost use Rattle.std.specs.Prelude.{Option};
    ghost use Rattle.model.specs.declared.Record.{Record};
    ghost use Rattle.statuses.specs.Inner.Sets.{number_of};
    ghost use Rattle.statuses.specs.Inner.Stored.{lowest_of, stored};

    ghost Value = { Option Record };

    ghost view = { λ s. lowest_of s.number };

    ghost inverse = { λ o. record { number = number_of o } };

    ghost inverse_ok = { λ s h i. record { number = stored s.number i } };
}

impl Lowest {
    // No record.
    pub const NONE: Lowest = Lowest { number: 65535 };

    // The record, if there is one.
    pub fn record(self) -> Option<Record>
        ensures { result ≡ self }
    {
        if self.number == 65535 {
            None
        } else {
            Some(Record(self.number))
        }
    }

    // The lowest record, with record k too where it stops the cell.
    pub fn lowered(self, stops: bool, k: Record) -> Lowest
        ensures lower { number_of result ≤ number_of self }
        ensures named { (result ≡ self) ⊎ ((result ≡ Some k) × (stops ≡ true)) }
        ensures least { stops ≡ true → number_of result ≤ k.0 }
    {
        if stops && k.0 < self.number {
            Lowest { number: k.0 }
        } else {
            self
        }
    }
}
