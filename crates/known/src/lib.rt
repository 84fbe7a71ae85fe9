// What a run knows of its cells, so that it need not compare them again.
#![tactic(auto)]

ghost use Rattle.std.specs.Prelude.{◌≡◌, true, ◌&&◌, List, ℕ, ◌<◌, eqb};
ghost use Rattle.memories.specs.Inner.Ranges.{AllCurrent, of_side};
ghost use Rattle.known.specs.Inner.Knowing.{known_in, at_start, Sure, Added, Wrote, Copied};

use memories::flags::{flag_set, with_flag, without_flag};

// The arrays all of whose cells are known to be current on the host, and those on the card: bit a is array a. Two numbers and no more: they go through each step
// of a run with the machine.
#[derive(Clone, Copy)]
pub struct Known {
    pub host: u64,
    pub card: u64,
}

impl Known {
    // At the start of a run: the arrays that are flagged on the host are current there.
    pub fn at_start(flags: u64) -> Known
        ensures { result ≡ at_start flags }
    {
        Known {
            host: flags,
            card: 0,
        }
    }

    // What is known on a side.
    fn on_side(self, on_card: bool) -> u64
        ensures { result ≡ known_in on_card self }
    {
        if on_card { self.card } else { self.host }
    }

    // Whether the cells of an array are known to be current on a side.
    pub fn sure(self, on_card: bool, array: u8) -> bool
        requires { array < 32 }
        ensures { (from to : ℕ) (host card latest : List ℕ) → Sure self array from to host card latest → result ≡ true → AllCurrent (of_side on_card host card) latest from to }
    {
        flag_set(self.on_side(on_card), array)
    }

    // After a write of cells of an array, or of the whole of it, on a side: those on the other side are stale.
    pub fn written(self, on_card: bool, whole: bool, array: u8) -> Known
        requires { array < 32 }
        ensures { Wrote on_card whole array self result }
    {
        if on_card {
            Known {
                host: without_flag(self.host, array),
                card: added(self.card, whole, array),
            }
        } else {
            Known {
                host: added(self.host, whole, array),
                card: without_flag(self.card, array),
            }
        }
    }

    // After a copy of them: they are current on both.
    pub fn copied(self, whole: bool, array: u8) -> Known
        requires { array < 32 }
        ensures { Copied whole array self result }
    {
        Known {
            host: added(self.host, whole, array),
            card: added(self.card, whole, array),
        }
    }
}

// An array added to a set, where all its cells have become current.
fn added(known: u64, whole: bool, array: u8) -> u64
    requires { array < 32 }
    ensures { Added whole array known result }
{
    if whole {
        with_flag(known, array)
    } else {
        known
    }
}

// Whether the cells `from` up to `to` are all cells of an array, which begins at cell `first` and ends before cell `next`.
pub fn is_whole(from: usize, to: usize, first: u16, next: u16) -> bool
    ensures { result ≡ (eqb from first && eqb to next) }
{
    from == usize::from(first) && to == usize::from(next)
}
