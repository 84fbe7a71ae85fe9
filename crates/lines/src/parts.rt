// The heading, and the line of an array or a body.
ghost use Rattle.std.specs.Prelude.{◌≤◌};

use crate::words::{ARRAYS, BODIES, CELLS, Counted, Numbers, RECORDS};
use contents::Opened;
use reading::kinds::PLAIN;
use std::fmt;
use std::fmt::Write;

// How many there are, behind a comma; nothing where there are none.
fn counted(page: &mut impl Write, n: u16, words: [&'static str; 3]) -> fmt::Result {
    if n == 0 {
        return Ok(());
    }
    write!(page, ", {}", Counted(n, words))
}

// The line on the whole: the plan's kind, and how many arrays, cells, bodies and records it has.
pub fn heading(page: &mut impl Write, o: Opened) -> fmt::Result {
    page.write_str(if o.kind == PLAIN {
        "plain plan"
    } else {
        "declared plan"
    })?;
    counted(page, u16::from(o.arrays), ARRAYS)?;
    counted(page, o.cells, CELLS)?;
    counted(page, u16::from(o.bodies), BODIES)?;
    writeln!(page, ", {}", Counted(o.records, RECORDS))
}

// The line of array i, which has the cells from `first` up to `end`.
pub fn array_line(
    page: &mut impl Write,
    i: usize,
    first: u16,
    end: u16,
    scratch: bool,
) -> fmt::Result
    requires { first ≤ end }
{
    let cells = Counted(end - first, CELLS);
    let behind = if scratch { ", scratch" } else { "" };
    writeln!(page, "array {i}: {cells}{}{behind}", Numbers(first, end))
}

// The line of body i, which has the records from `first` up to `end`.
pub fn body_line(page: &mut impl Write, i: usize, first: u16, end: u16) -> fmt::Result
    requires { first ≤ end }
{
    let records = Counted(end - first, RECORDS);
    writeln!(page, "body {i}: {records}{}", Numbers(first, end))
}
