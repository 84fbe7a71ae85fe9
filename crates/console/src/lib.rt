// What the programs share: the streams, numbers as arguments, a page of output, and the answers as lines and in words.
#![tactic(auto)]

pub mod answers;
pub mod arguments;
pub mod page;
pub mod program;
pub mod streams;
pub mod table;
