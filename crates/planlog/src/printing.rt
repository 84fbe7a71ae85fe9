// What is said of a log, as lines.
ghost use Rattle.std.specs.Prelude.{◌+◌, ◌/◌, ◌^◌, ◌≤◌, ◌<◌, length};
ghost use Rattle.logs.specs.Inner.Following.{Underway};

use console::answers::Meaning;
use contents::Opened;
use logs::{Logged, Stage};
use model::{Values, Verdict, values_of};
use reading::number_at;
use std::fmt;
use std::fmt::Write;

// The answer's line: the file's kind, the answer's number, its place, its entry.
fn answer_line(page: &mut impl Write, kind: u8, values: Values, entry: u64) -> fmt::Result {
    writeln!(page, "{kind} {} {} {entry}", values.number, values.place)
}

// An answer that names no entry: its line, and of a refusal the words.
pub fn unplaced_lines(page: &mut impl Write, kind: u8, v: Verdict) -> fmt::Result {
    let values = values_of(v, 0);
    answer_line(page, kind, values, 0)?;
    if values.number == 0 {
        return Ok(());
    }
    writeln!(page, "{}", Meaning(values))
}

// Whether some run goes on with record r, where the entries before it have led to s.
fn goes_on(s: Stage, plan: &[u8], bodies: usize, r: u16) -> bool
    requires { Underway plan.now bodies s × (s.read < 2 ^ 62 + 2 ^ 63) }
{
    let mut n = s;
    n.follow(plan, bodies, &r.to_le_bytes());
    let l = n.conclude(plan, bodies);
    values_of(l.verdict, 0).number != 30
}

// The records with which some run goes on, where the entries before them have led to s.
fn expected_line(page: &mut impl Write, s: Stage, plan: &[u8], o: Opened) -> fmt::Result
    requires { Underway plan.now o.offset s × (s.read < 2 ^ 62 + 2 ^ 63) }
{
    page.write_str("expected")?;
    let mut more = false;
    for r in 0..o.records {
        if goes_on(s, plan, usize::from(o.offset), r) {
            let or = if more { " or" } else { "" };
            write!(page, "{or} record {r}")?;
            more = true;
        }
    }
    writeln!(page, "{}", if more { "" } else { " no more records" })
}

// Where the entries before entry i of a part have led, where the parts before it have led to s.
fn stage_before(s: Stage, plan: &[u8], bodies: usize, part: &[u8], i: usize) -> Stage
    requires { Underway plan.now bodies s × (s.read < 2 ^ 62) × (i ≤ length part.now / 2) }
    ensures { Underway plan.now bodies result × (result.read < 2 ^ 62 + 2 ^ 63) }
{
    let mut n = s;
    let end = 2 * i;
    n.follow(plan, bodies, &part[..end]);
    n
}

// What is wrong with the entry that an answer names, where the parts before this one have led to s.
pub fn entry_lines(
    page: &mut impl Write,
    s: Stage,
    plan: &[u8],
    o: Opened,
    part: &[u8],
    l: Logged,
) -> fmt::Result
    requires { Underway plan.now o.offset s × (s.read < 2 ^ 62) }
{
    let values = values_of(l.verdict, 0);
    answer_line(page, o.kind, values, l.entry)?;
    let entry = l.entry;
    if entry < s.read {
        return Ok(());
    }
    let i = (entry - s.read) as usize;
    if part.len() / 2 <= i {
        return Ok(());
    }
    let found = number_at(part, 2 * i);
    if values.number == 31 {
        return writeln!(
            page,
            "the record at entry {entry}, record {found}, is stuck"
        );
    }
    writeln!(
        page,
        "no run, stops aside, goes on with entry {entry}, record {found}"
    )?;
    let there = stage_before(s, plan, usize::from(o.offset), part, i);
    expected_line(page, there, plan, o)
}
