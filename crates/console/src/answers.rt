// Answers as lines, and in words.
use crate::page::Page;
use crate::table::row;
use model::{Fault, Values, values_of};
use std::fmt::Write;
use std::io::Print;
use std::{fmt, io};

// Writes the line of an answer, or answers why not all of it was taken: the file's kind (0 if it does not open), the answer's number, place or
// record, cell.
pub fn print_answer<W: Print + Copy>(to: W, kind: u8, v: Values) -> io::Result<()> {
    let mut page = Page::new(to);
    let _ = writeln!(page, "{kind} {} {} {}", v.number, v.place, v.cell);
    page.print()
}

// The numbers that the programs give in words, those of document 01, 'Numbers by the place where each is checked', and of document 02, with `#` for
// the place, for the numbers that have one.
const WORDS: &[u8] = b"
01 under 4 bytes
02 a header byte against its rule
03 file ends inside the contents
04 array length or their total against its rule, array #
05 body entry: fourth byte not zero, more declarations than records, declarations in body 0 or total too large, body #
06 file length not as the contents say
07 check bytes wrong
08 a field against its rule, record #
09 kind not allowed there, record #
10 arm past the end of what holds it, or nested too deep, record #
11 judge or expand without kind 1, check, run or log without kind 2
19 a memory shorter than the cells
20 over 65,536 choices
23 first not below end, or end past the shortest memory
24 neither side wholly current
25 no such body
26 along some nesting the product of the counts passes 4,096, record #
29 odd length
38 n above 24
";

// What a refusal means, in words.
#[derive(Clone, Copy)]
pub struct Meaning(pub Values);

impl fmt::Display for Meaning {
    fn fmt<W: Write>(&self, f: &mut fmt::Formatter<W>) -> fmt::Result {
        for b in row(WORDS, self.0.number) {
            if *b == b'#' {
                write!(f, "{}", self.0.place)?;
            } else {
                f.write_char(char::from(*b))?;
            }
        }
        Ok(())
    }
}

// A refusal: its number, and what it means.
#[derive(Clone, Copy)]
pub struct Refusal(pub Fault);

impl fmt::Display for Refusal {
    fn fmt<W: Write>(&self, f: &mut fmt::Formatter<W>) -> fmt::Result {
        let v = values_of(Err(self.0), 0);
        write!(f, "{} {}", v.number, Meaning(v))
    }
}
