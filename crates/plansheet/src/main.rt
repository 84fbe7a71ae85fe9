// Prints the figures of an exercise sheet on one line: of the sequences of length N over one cell, where N is its argument, how many stop at place 1,
// and so on to N, and last how many pass.
#![tactic(auto)]

use console::answers::Refusal;
use console::arguments::{argument_count, number_argument};
use console::page::Page;
use console::program::Program;
use model::Fault;
use sheet::{FIGURES, sheet};
use std::fmt;
use std::fmt::Write;
use std::io::Stdout;

// The figures of a sheet as a line.
fn line(page: &mut impl Write, figures: &[u64]) -> fmt::Result {
    for (i, k) in figures.iter().enumerate() {
        if i == 0 {
            write!(page, "{k}")?;
        } else {
            write!(page, " {k}")?;
        }
    }
    page.write_str("\n")
}

// Prints the figures as a line.
fn print_line(out: Stdout, program: Program<'_>, figures: &[u64]) {
    let mut page = Page::new(out);
    // The page keeps a failure until it is finished.
    let _ = line(&mut page, figures);
    page.finish(program);
}

// Says on standard error why there are none.
fn refuse(program: Program<'_>, fault: Fault) {
    let mut page = Page::new(program.err);
    let _ = writeln!(page, "plansheet: {}", Refusal(fault));
    let _ = page.print();
}

// Prints the figures for sequences of length n, or says why there are none.
fn answer(out: Stdout, program: Program<'_>, n: u64) {
    let mut figures = [0u64; FIGURES];
    match sheet(n, &mut figures) {
        Ok(()) => print_line(out, program, &figures[..n as usize + 1]),
        Err(fault) => refuse(program, fault),
    }
}

fn main(rt: HostRuntime) {
    let program = Program {
        name: b"plansheet",
        err: rt.stderr(),
    };
    match (argument_count(&rt), number_argument(&rt, 1)) {
        (2, Some(n)) => answer(rt.stdout(), program, n),
        _ => program.put(b"usage: plansheet N (0 to 24)\n"),
    }
}
