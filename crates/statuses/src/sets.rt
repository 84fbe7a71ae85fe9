// Sets of statuses, a bit for each: only this file knows how a set is stored. A status is a number below 16: 8 host current, 4 card current, 2 host flag, 1 card flag.
ghost use Rattle.std.specs.Prelude.{◌≡◌, true, false, not, ◌&&◌, ◌||◌, ℕ, ◌<◌, ◌^◌, eqb, MatchOption};
ghost use Rattle.std.specs.Iterator.{at_most};
ghost use Rattle.statuses.specs.Inner.Sets.{statuses, bit, Union, Taken};

use std::marker::Model;

// A set of statuses.
#[derive(Clone, Copy, PartialEq, Eq)]
pub struct Statuses {
    bits: u16,
}

impl Model for Statuses {
    ghost Value = { ℕ };

    ghost view = { λ s. s.bits };

    ghost invariant = { λ s. s.bits < 2 ^ 16 };

    ghost inverse = { λ n. record { bits = n } };
}

impl Statuses {
    // The set of no status.
    pub const EMPTY: Statuses = Statuses { bits: 0 };

    // The set of one status.
    pub fn only(w: usize) -> Statuses
        requires { w < statuses }
        ensures { (i : ℕ) → i < statuses → bit result i ≡ eqb i w }
    {
        Statuses { bits: 1u16 << w }
    }

    // The statuses of either set.
    pub fn union(self, other: Statuses) -> Statuses
        ensures { Union result self other }
    {
        Statuses {
            bits: self.bits | other.bits,
        }
    }

    // A status of a set that has one: that with the lowest number.
    pub fn lowest(self) -> Option<usize>
        ensures { MatchOption result (self ≡ 0) (λ w. (w < statuses) × (bit self w ≡ true)) }
    {
        if self.bits == 0 {
            return None;
        }
        Some(self.bits.trailing_zeros() as usize)
    }

    // A set, and status w too, which is not in it.
    pub fn with(self, w: usize) -> Statuses
        requires { (w < statuses) × (bit self w ≡ false) }
        ensures { (self < result) × ((i : ℕ) → i < statuses → bit result i ≡ (eqb i w || bit self i)) }
    {
        Statuses {
            bits: self.bits | 1u16 << w,
        }
    }

    // A set without status w, which is in it.
    pub fn dropped(self, w: usize) -> Statuses
        requires { (w < statuses) × (bit self w ≡ true) }
        ensures { (result < self) × ((i : ℕ) → i < statuses → bit result i ≡ (not (eqb i w) && bit self i)) }
    {
        Statuses {
            bits: self.bits ^ 1u16 << w,
        }
    }

    // The statuses of a set that are not in the other.
    pub fn without(self, other: Statuses) -> Statuses
        ensures { (i : ℕ) → bit result i ≡ (bit self i && not (bit other i)) }
    {
        Statuses {
            bits: self.bits ^ self.bits & other.bits,
        }
    }

    // The statuses of a set, from the lowest on.
    pub fn members(self) -> Members
        ensures { result.left ≡ self }
    {
        Members { left: self }
    }
}

// The statuses of a set that are still to come.
#[derive(Drop)]
pub struct Members {
    left: Statuses,
}

impl Iterator for Members {
    type Item = usize;

    ghost next_gives = { λ s r t. Taken s.left r t.left };

    ghost remaining = { λ s. at_most s.left };

    fn next(&mut self) -> Option<usize> {
        let w = self.left.lowest()?;
        self.left = self.left.dropped(w);
        Some(w)
    }
}
