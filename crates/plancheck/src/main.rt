// Reads a plan file from standard input, judges a declared plan, checks a plain one, and prints one line:
// the file's kind (0 if it does not open), the answer (0 accepted), place or record, cell.
#![tactic(auto)]

ghost use Rattle.plancheck.specs.Lines.{LineOf};

use checker::check_opened;
use console::answers::print_answer;
use console::program::Program;
use format::{open, opened_kind};
use input::{ROOM, read_plan};
use judge::judge_opened;
use model::{Values, values_of};
use reading::kinds::PLAIN;

// What the line says.
#[derive(Clone, Copy)]
struct Line {
    kind: u8,
    values: Values,
}

// The line for a plan file of any bytes.
#[tactic(auto, using(crate::proofs::Cases::line_plain, crate::proofs::Cases::line_other))]
fn line_of(plan: &[u8]) -> Line
    ensures { LineOf plan.now result }
{
    let o = open(plan);
    let kind = opened_kind(&o);
    let answer = if kind == PLAIN {
        check_opened(plan, o)
    } else {
        judge_opened(plan, o)
    };
    Line {
        kind,
        values: values_of(answer, 18),
    }
}

fn main(rt: HostRuntime) {
    let program = Program {
        name: b"plancheck",
        err: rt.stderr(),
    };
    let mut room = [0u8; ROOM];
    let Ok(size) = read_plan(rt.stdin(), program, &mut room) else {
        return;
    };
    let line = line_of(&room[..size]);
    if let Err(why) = print_answer(rt.stdout(), line.kind, line.values) {
        program.fail(b"standard output", why);
    }
}
