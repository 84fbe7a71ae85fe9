// Reads a declared plan file from standard input and writes its expansion's file to standard output. At a refusal it writes one line to
// standard error, as plancheck does: the file's kind (0 if it does not open), the answer's number, place, cell (0).
#![tactic(auto)]

ghost use Rattle.planexpand.specs.Expansions.{ExpansionOf};

use console::answers::print_answer;
use console::program::Program;
use console::streams::write;
use expand::{expand, expansion_length};
use format::{open, opened_kind};
use input::{ROOM, read_plan};
use model::{Values, values_of};

// The largest expansion's file: 32 arrays, 1,024 records.
const LARGEST: usize = 8266;

// What is written: so many bytes of the output, or the line of a refusal.
#[derive(Clone, Copy)]
struct Expansion {
    kind: u8,
    values: Values,
    size: usize,
}

// Expands a plan file of any bytes into an output that has room for every expansion.
fn expansion_of(plan: &[u8], out: &mut [u8; LARGEST]) -> Expansion
    ensures { ExpansionOf plan.now out.old out.new result }
{
    let o = open(plan);
    let kind = opened_kind(&o);
    let answer = expand(plan, out);
    let length = expansion_length(plan).unwrap_or(0);
    Expansion {
        kind,
        values: values_of(answer, 0),
        size: length as usize,
    }
}

fn main(rt: HostRuntime) {
    let program = Program {
        name: b"planexpand",
        err: rt.stderr(),
    };
    let mut room = [0u8; ROOM];
    let Ok(n) = read_plan(rt.stdin(), program, &mut room) else {
        return;
    };
    let mut out = [0u8; LARGEST];
    let e = expansion_of(&room[..n], &mut out);
    if let Err(why) = write(&rt.stdout(), &out[..e.size]) {
        program.fail(b"standard output", why);
    }
    if e.values.number != 0 {
        let _ = print_answer(program.err, e.kind, e.values);
    }
}
