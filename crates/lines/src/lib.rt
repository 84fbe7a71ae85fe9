// The lines of a listing: the heading, the line of an array or a body, and the lines of a record.
#![tactic(auto)]

pub mod parts;
pub mod records;
mod words;

// The last number before an end.
fn last(end: u16) -> u16 {
    end.saturating_sub(1)
}
