// The records of a body or of an arm, read from the body's own bytes.
ghost use Rattle.std.specs.Prelude.{◌≡◌, ◌+◌, ◌*◌, ◌≤◌, ◌<◌, length};
ghost use Rattle.listing.specs.Inner.Bodies.{fields_in, Listable};

use lines::records::{else_line, record_lines};
use reading::{Fields, byte, first_arm, number_at, second_arm};
use std::fmt;
use std::fmt::Write;

// The fields of record i of a body. It stands beside reading's `record_at`, whose `requires` asks for the bytes
// of a whole plan: one function under both made opening slower (docs/DECISIONS.md, "Tried and left").
#[tactic(auto, unfolding(crate::specs::Inner::Bodies::fields_in))]
fn record_in(body: &[u8], i: usize) -> Fields
    requires { (i < 1024) × (8 * i + 8 ≤ length body.now) }
    ensures { result ≡ fields_in body.now i }
{
    let at = 8 * i;
    Fields {
        kind: byte(body, at),
        side: byte(body, at + 1),
        array: byte(body, at + 2),
        step: byte(body, at + 3),
        p: number_at(body, at + 4),
        q: number_at(body, at + 6),
    }
}

// The records `from` up to `end` of a body whose first record has the number `first`, and below each one those of its arms, one level further in. The
// first level is 1, and each further one has its branch or loop before `from`.
pub fn block(
    page: &mut impl Write,
    body: &[u8],
    first: usize,
    level: usize,
    from: usize,
    end: usize,
) -> fmt::Result
    requires { (level ≤ from + 1) × (from ≤ end) × (first + end ≤ 1024) × Listable body.now first from end }
{
    let mut r = from;
    // Not a range: a step is a record with its arms.
    while r < end {
        let x = record_in(body, r);
        let second = r + 1 + first_arm(x);
        let next = second + second_arm(x);
        record_lines(page, level, first + r, x)?;
        block(page, body, first, level + 1, r + 1, second)?;
        else_line(page, level, second, next)?;
        block(page, body, first, level + 1, second, next)?;
        r = next;
    }
    Ok(())
}
