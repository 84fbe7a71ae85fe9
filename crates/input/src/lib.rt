// Reading a plan file, or another.
#![tactic(auto)]

ghost use Rattle.std.specs.Prelude.{IsSome, MatchResult};
ghost use Rattle.input.specs.Counts.{IsPrefixLen};

use console::program::Program;
use std::io::{Error, Read, Stdin};

pub mod files;
#[cfg(test)]
mod tests;

// One byte more than the largest plan file, which has 32 arrays, 32 bodies and 1,024 records. Of a longer input these bytes decide the answer
// (specs/Longer).
pub const ROOM: usize = 8391;

// A reading that failed: so many bytes stand at the front of the room all the same; and of a read that failed, why.
#[derive(Clone, Copy)]
pub struct Failed {
    pub size: usize,
    pub why: Option<Error>,
}

// Reads until the room is full, the input ends or a read fails, and answers how many bytes stand at the front of the room.
pub fn read_input<R: Read>(from: &mut R, room: &mut [u8]) -> Result<usize, Failed>
    ensures { MatchResult result (λ n. IsPrefixLen n room.new) (λ e. IsPrefixLen e.size room.new × IsSome e.why) }
{
    let mut size = 0;
    // Not a range: a step is what a read gave.
    while size < room.len() {
        let more = match from.read(&mut room[size..]) {
            Ok(more) => more,
            Err(e) => {
                let why = Some(e);
                return Err(Failed { size, why });
            }
        };
        if more == 0 {
            return Ok(size);
        }
        size += more;
    }
    Ok(size)
}

// Reads standard input; where that fails it has said so on standard error.
pub fn read_plan(stdin: Stdin, program: Program<'_>, room: &mut [u8]) -> Result<usize, Failed>
    ensures { MatchResult result (λ n. IsPrefixLen n room.new) (λ e. IsPrefixLen e.size room.new) }
{
    let mut from = stdin;
    match read_input(&mut from, room) {
        Ok(size) => Ok(size),
        Err(failed) => {
            if let Some(why) = failed.why {
                program.fail(b"standard input", why);
            }
            Err(failed)
        }
    }
}
