// Counts, ranges and ordinals in words.
use crate::last;
use std::fmt;
use std::fmt::Write;

// So many of a thing, and the thing's words for none, for one and for several.
#[derive(Clone, Copy)]
pub struct Counted(pub u16, pub [&'static str; 3]);

pub const ARRAYS: [&'static str; 3] = ["arrays", "array", "arrays"];

pub const CELLS: [&'static str; 3] = ["cells", "cell", "cells"];

pub const BODIES: [&'static str; 3] = ["bodies", "body", "bodies"];

pub const RECORDS: [&'static str; 3] = ["records", "record", "records"];

impl fmt::Display for Counted {
    fn fmt<W: Write>(&self, f: &mut fmt::Formatter<W>) -> fmt::Result {
        let n = self.0;
        let word = self.1[usize::from(n.min(2))];
        write!(f, "{n} {word}")
    }
}

// The numbers from the first up to the end, behind a comma; nothing where there are none.
#[derive(Clone, Copy)]
pub struct Numbers(pub u16, pub u16);

impl fmt::Display for Numbers {
    fn fmt<W: Write>(&self, f: &mut fmt::Formatter<W>) -> fmt::Result {
        let Numbers(first, end) = *self;
        match end.saturating_sub(first) {
            0 => Ok(()),
            1 => write!(f, ", {first}"),
            _ => write!(f, ", {first} to {}", last(end)),
        }
    }
}

// A number as an ordinal, as 2nd.
#[derive(Clone, Copy)]
pub struct Ordinal(pub usize);

impl fmt::Display for Ordinal {
    fn fmt<W: Write>(&self, f: &mut fmt::Formatter<W>) -> fmt::Result {
        let n = self.0;
        let ending = match (n / 10 % 10, n % 10) {
            (1, _) => "th",
            (_, 1) => "st",
            (_, 2) => "nd",
            (_, 3) => "rd",
            _ => "th",
        };
        write!(f, "{n}{ending}")
    }
}
