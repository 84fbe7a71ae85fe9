// The lines of a record.
use crate::last;
use crate::words::Ordinal;
use reading::kinds::{BRANCH, CALL, COPY, FIXED, LOOP, MARK, NEED, R, READ, RW, W, WRITE};
use reading::{Fields, nests, step_of};
use std::fmt;
use std::fmt::{Display, Formatter, Write};

// The beginning of a line that stands so many levels in: two spaces a level.
pub fn indent(page: &mut impl Write, level: usize) -> fmt::Result {
    for _ in 0..level {
        page.write_str("  ")?;
    }
    Ok(())
}

// What a record is by its kind, with the body that it calls or its turns.
#[derive(Clone, Copy)]
struct Does(Fields);

impl Display for Does {
    fn fmt<F: Write>(&self, f: &mut Formatter<F>) -> fmt::Result {
        let x = self.0;
        match x.kind {
            READ => f.write_str("read"),
            WRITE => f.write_str("write"),
            COPY => f.write_str("copy to"),
            NEED => f.write_str("need"),
            MARK => f.write_str("mark"),
            BRANCH => f.write_str("branch"),
            LOOP => f.write_str("loop"),
            CALL => write!(f, "call body {}", x.p),
            FIXED if x.q == 1 => f.write_str("fixed loop, 1 turn"),
            FIXED => write!(f, "fixed loop, {} turns", x.q),
            R => f.write_str("R"),
            W => f.write_str("W"),
            RW => f.write_str("RW"),
            0 | 10..=15 | 19..=255 => Ok(()),
        }
    }
}

// Which cells of its array a record takes: one cell or several, of these each or every second, and so on; nothing where it is about the whole array.
#[derive(Clone, Copy)]
struct Cells(Fields);

impl Display for Cells {
    fn fmt<F: Write>(&self, f: &mut Formatter<F>) -> fmt::Result {
        let x = self.0;
        if COPY < x.kind {
            return Ok(());
        }
        if x.q.saturating_sub(x.p) == 1 {
            write!(f, " cell {}", x.p)?;
        } else {
            write!(f, " cells {} to {}", x.p, last(x.q))?;
        }
        match step_of(x) {
            1 => Ok(()),
            step => write!(f, ", every {} cell", Ordinal(step)),
        }
    }
}

// Where a record acts; nothing of one that acts nowhere.
#[derive(Clone, Copy)]
struct Place(Fields);

impl Display for Place {
    fn fmt<F: Write>(&self, f: &mut Formatter<F>) -> fmt::Result {
        let x = self.0;
        let side = if x.side == 0 { "host" } else { "card" };
        match x.kind {
            READ | WRITE | COPY | NEED | MARK | R | W | RW => {
                write!(f, " {side} array {}{}", x.array, Cells(x))
            }
            0 | 6..=15 | 19..=255 => Ok(()),
        }
    }
}

// The lines of record r; below it one that stands for the first arm of a branch or the arm of a loop, fixed or not, where it is empty.
pub fn record_lines(page: &mut impl Write, level: usize, r: usize, x: Fields) -> fmt::Result {
    indent(page, level)?;
    writeln!(page, "{r} {}{}", Does(x), Place(x))?;
    if nests(x) && x.p == 0 {
        indent(page, level)?;
        page.write_str("  nothing\n")?;
    }
    Ok(())
}

// The line before a second arm that has records, those from `second` up to `next`.
pub fn else_line(page: &mut impl Write, level: usize, second: usize, next: usize) -> fmt::Result {
    if next <= second {
        return Ok(());
    }
    indent(page, level)?;
    page.write_str("else\n")
}
