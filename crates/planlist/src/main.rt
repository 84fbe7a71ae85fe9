// Reads a plan file from standard input and lists it for a reader: its arrays, its bodies, and their records with the arms indented. Of a file
// that does not open it prints one line: the number, what it means, and the place. With a body's number as its argument it lists that body alone.
#![tactic(auto)]

ghost use Rattle.std.specs.Prelude.{◌≡◌, ◌<◌, IfOk, Ok};
ghost use Rattle.reading.specs.Bytes.{body_count};
ghost use Rattle.format.specs.Opening.{opened};

use console::answers::Refusal;
use console::arguments::{argument_count, number_argument};
use console::page::Page;
use console::program::Program;
use contents::Opened;
use format::{body_view_answer, open};
use input::{ROOM, read_plan};
use listing::{body_lines, listed};
use model::Fault;
use std::fmt;
use std::fmt::Write;
use std::io::{Stdin, Stdout};

// What is printed for a plan file of any bytes.
fn plan_answer(page: &mut impl Write, plan: &[u8]) -> fmt::Result {
    match open(plan) {
        Ok(o) => listed(page, plan, o),
        Err(fault) => writeln!(page, "not a plan: {}", Refusal(fault)),
    }
}

// What opening found, where the plan has the body.
fn open_with(plan: &[u8], body: u64) -> Result<Opened, Fault>
    ensures { IfOk result (λ o. (Ok o ≡ opened plan.now) × (body < body_count plan.now)) }
{
    body_view_answer(plan, body)?;
    open(plan)
}

// What is printed for one body of it.
fn body_answer(page: &mut impl Write, plan: &[u8], body: u64) -> fmt::Result {
    match open_with(plan, body) {
        Ok(o) => body_lines(page, plan, o, body as usize),
        Err(fault) => writeln!(page, "no body of a plan: {}", Refusal(fault)),
    }
}

// The one or the other, as a body is asked for or not.
fn answer(page: &mut impl Write, plan: &[u8], body: Option<u64>) -> fmt::Result {
    match body {
        Some(body) => body_answer(page, plan, body),
        None => plan_answer(page, plan),
    }
}

// Lists what standard input gives.
fn list(stdin: Stdin, out: Stdout, program: Program<'_>, body: Option<u64>) {
    let mut room = [0u8; ROOM];
    let Ok(size) = read_plan(stdin, program, &mut room) else {
        return;
    };
    let mut page = Page::new(out);
    // The page keeps a failure until it is finished.
    let _ = answer(&mut page, &room[..size], body);
    page.finish(program);
}

fn main(rt: HostRuntime) {
    let program = Program {
        name: b"planlist",
        err: rt.stderr(),
    };
    match (argument_count(&rt), number_argument(&rt, 1)) {
        (1, None) => list(rt.stdin(), rt.stdout(), program, None),
        (2, Some(body)) => list(rt.stdin(), rt.stdout(), program, Some(body)),
        _ => program.put(b"usage: planlist [BODY] < PLAN\n"),
    }
}
