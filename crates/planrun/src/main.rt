// Runs a plain plan on a list of choices: reads both files, whose paths are its first arguments, and prints the figures of the run. With two more
// arguments, a first and an end cell, it prints the memory view of these cells after the run too.
#![tactic(auto)]

use console::arguments::{argument_count, number_argument};
use console::page::Page;
use console::program::Program;
use input::ROOM;
use input::files::NamedFile;
use printing::report_lines;
use reading::kinds::CELLS;
use report::{Ending, report_of};
use std::env::Env;
use std::fmt;
use std::fmt::Write;
use std::io::Stdout;
use std::rt::Files;
use viewing::{Cells, plan_view_lines};

mod printing;
mod viewing;

// One more than the most choices that a run takes, so that a longer file is seen to be longer.
const CHOICES_ROOM: usize = 65537;

// What is printed of a plan, choices, and cells to view, of these nothing after a run that has not begun.
fn answer(page: &mut impl Write, plan: &[u8], choices: &[u8], asked: Option<Cells>) -> fmt::Result {
    let mut host = [0u64; CELLS];
    let mut card = [0u64; CELLS];
    let mut latest = [0u64; CELLS];
    let r = report_of(plan, choices, &mut host, &mut card, &mut latest);
    report_lines(page, r)?;
    match (r.ending, asked) {
        (Ending::Refused, _) | (_, None) => Ok(()),
        (_, Some(cells)) => plan_view_lines(page, plan, &host, &card, &latest, cells),
    }
}

// Runs a plan on the file of choices that the second argument names.
fn run_plan<R: Env + Files>(
    rt: &R,
    out: Stdout,
    program: Program<'_>,
    plan: &[u8],
    asked: Option<Cells>,
) {
    let named = NamedFile {
        program,
        argument: 2,
        what: b"choices file",
    };
    let mut choices = [0u8; CHOICES_ROOM];
    let Ok(n) = named.read(rt, &mut choices) else {
        return;
    };
    let mut page = Page::new(out);
    // The page keeps a failure until it is finished.
    let _ = answer(&mut page, plan, &choices[..n], asked);
    page.finish(program);
}

// The same of the plan file that the first argument names.
fn run_files<R: Env + Files>(rt: &R, out: Stdout, program: Program<'_>, asked: Option<Cells>) {
    let named = NamedFile {
        program,
        argument: 1,
        what: b"plan file",
    };
    let mut plan = [0u8; ROOM];
    if let Ok(n) = named.read(rt, &mut plan) {
        run_plan(rt, out, program, &plan[..n], asked);
    }
}

fn main(rt: HostRuntime) {
    let program = Program {
        name: b"planrun",
        err: rt.stderr(),
    };
    let first = number_argument(&rt, 3);
    let end = number_argument(&rt, 4);
    match (argument_count(&rt), first, end) {
        (3, _, _) => run_files(&rt, rt.stdout(), program, None),
        (5, Some(first), Some(end)) => {
            run_files(&rt, rt.stdout(), program, Some(Cells { first, end }))
        }
        _ => program.put(b"usage: planrun PLAN CHOICES [FIRST END]\n"),
    }
}
