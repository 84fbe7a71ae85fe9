// Holds a router's log, of any length, against a plain plan: reads both files, whose paths are its arguments, and prints the answer's line, the file's kind (0 if it does not
// open), the answer's number, its place, its entry; then in words what is wrong, and with which records a run would have gone on.
#![tactic(auto)]

ghost use Rattle.std.specs.Prelude.{◌+◌, ◌^◌, ◌≤◌, ◌<◌, length, IfSome};
ghost use Rattle.logs.specs.Inner.Following.{Underway, Opens};

use console::arguments::argument_count;
use console::page::Page;
use console::program::Program;
use contents::Opened;
use format::opened_kind;
use input::ROOM;
use input::files::NamedFile;
use logs::{Stage, plan_to_follow};
use printing::{entry_lines, unplaced_lines};
use std::env::Env;
use std::io::{Read, Stdout};
use std::rt::Files;

mod printing;

// How many bytes are read at a time: whole entries.
const PART: usize = 16384;

// More parts than a file has.
const PARTS: u64 = 70368744177664;

// Where one part more leads; None where it holds a refused entry, whose lines then wait in the page. The page keeps a failure until it is finished.
fn after_part(
    page: &mut Page<Stdout>,
    before: Stage,
    plan: &[u8],
    o: Opened,
    part: &[u8],
) -> Option<Stage>
    requires { Underway plan.now o.offset before × (before.read < 2 ^ 62) × (length part.now ≤ 16384) }
    ensures { IfSome result (λ s. Underway plan.now o.offset s × (s.read ≤ before.read + 8192)) }
{
    let bodies = usize::from(o.offset);
    let mut s = before;
    s.follow(plan, bodies, part);
    let l = s.conclude(plan, bodies);
    if l.verdict.is_err() {
        let _ = entry_lines(page, before, plan, o, part, l);
        return None;
    }
    Some(s)
}

// What is printed at the end of the log: the lines of a refused entry, which wait in the page, or those of an answer that names no entry.
fn last_lines(page: &mut Page<Stdout>, o: Opened, goes_on: bool, odd: bool) {
    if goes_on || odd {
        page.clear();
        let v = plan_to_follow(Ok(o), odd).map(|_| ());
        let _ = unplaced_lines(page, o.kind, v);
    }
}

// Puts into the page what is printed of a log file; None where it cannot be read to its end. Behind a refused entry nothing counts but how many bytes
// there are.
fn log_lines<R: Env, F: Read>(
    rt: &R,
    page: &mut Page<Stdout>,
    plan: &[u8],
    o: Opened,
    named: NamedFile<'_>,
    log: &mut F,
) -> Option<()>
    requires { Opens plan.now o }
{
    let mut part = [0u8; PART];
    let mut stage = Some(Stage::first(plan, o));
    for _k in 0..PARTS {
        let n = named.read_on(rt, log, &mut part).ok()?;
        if let Some(before) = stage {
            stage = after_part(page, before, plan, o, &part[..n]);
        }
        if n < PART {
            last_lines(page, o, stage.is_some(), n % 2 == 1);
            return Some(());
        }
    }
    None
}

// Prints the answer to a plan and that log file.
fn answer<R: Env, F: Read>(rt: &R, out: Stdout, plan: &[u8], named: NamedFile<'_>, log: &mut F) {
    let mut page = Page::new(out);
    let opened = format::open(plan);
    match plan_to_follow(opened, false) {
        Ok(o) => {
            if let Some(()) = log_lines(rt, &mut page, plan, o, named, log) {
                page.finish(named.program);
            }
        }
        Err(fault) => {
            let _ = unplaced_lines(&mut page, opened_kind(&opened), Err(fault));
            page.finish(named.program);
        }
    }
}

// The same of the plan file that the first argument names and the log file that the second names.
fn log_files<R: Env + Files>(rt: &R, out: Stdout, program: Program<'_>) {
    let plan_file = NamedFile {
        program,
        argument: 1,
        what: b"plan file",
    };
    let log_file = NamedFile {
        program,
        argument: 2,
        what: b"log file",
    };
    let mut plan = [0u8; ROOM];
    let Ok(n) = plan_file.read(rt, &mut plan) else {
        return;
    };
    if let Some(log) = log_file.open(rt) {
        let mut log = log;
        answer(rt, out, &plan[..n], log_file, &mut log);
    }
}

fn main(rt: HostRuntime) {
    let program = Program {
        name: b"planlog",
        err: rt.stderr(),
    };
    if argument_count(&rt) == 3 {
        log_files(&rt, rt.stdout(), program);
    } else {
        program.put(b"usage: planlog PLAN LOG\n");
    }
}
