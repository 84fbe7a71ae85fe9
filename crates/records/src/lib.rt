// Numbers 8 to 10 and 26: the records of all bodies.
#![tactic(auto)]

ghost use Rattle.std.specs.Prelude.{◌≡◌, ℕ, ◌+◌, ◌≤◌};
ghost use Rattle.model.specs.Verdicts.{Accepted};
ghost use Rattle.model.specs.Rows.{answer_of, all_rows};
ghost use Rattle.reading.specs.Bytes.{body_count, declarations_in, first_record};
ghost use Rattle.reading.specs.Inner.Places.{Inside};
ghost use Rattle.contents.specs.Contents.{front_rows};
ghost use Rattle.contents.specs.Found.{found};
ghost use Rattle.records.specs.Records.{block_rows, body_rows};

use contents::Opened;
use model::Verdict;
use reading::{first_arm, nests, record_at, second_arm, turns_of};
use rules::record_tests;

// The records from `from` up to `end`, inside `depth` branches and loops, whose fixed loops have counts with the product `around`.
pub fn block(
    plan: &[u8],
    bodies: usize,
    body: usize,
    until: usize,
    depth: usize,
    around: usize,
    from: usize,
    end: usize,
) -> Verdict
    requires { (depth ≤ from) × (from ≤ end) × (end ≤ 1024) × (around ≤ 4096) × Inside plan.now bodies end × (until ≡ first_record plan.now body + declarations_in plan.now body) }
    ensures { (fuel : ℕ) → end ≤ from + fuel → result ≡ answer_of (block_rows fuel plan.now body depth around from end) }
{
    let mut r = from;
    // A record's step is the length of its arms, so this is no `for`.
    while r < end {
        let x = record_at(plan, bodies, r);
        record_tests(plan, body, until, depth, around, end, r, x)?;
        if nests(x) {
            let second = r + 1 + first_arm(x);
            let next = second + second_arm(x);
            let within = around * turns_of(x);
            block(plan, bodies, body, until, depth + 1, within, r + 1, second)?;
            block(plan, bodies, body, until, depth + 1, within, second, next)?;
            r = next;
        } else {
            r += 1;
        }
    }
    Ok(())
}

// Numbers 8 to 10 and 26 of every body of a file in which none of 1 to 7 holds and o was found.
pub fn all_records(plan: &[u8], o: Opened) -> Verdict
    requires { (Accepted ≡ answer_of (front_rows plan.now)) × (o ≡ found plan.now) }
    ensures { result ≡ answer_of (all_rows (body_count plan.now) (body_rows plan.now)) }
{
    let offset = usize::from(o.offset);
    let starts = o.body_starts;
    let declarations = o.declarations;
    for b in 0..usize::from(o.bodies) {
        let from = usize::from(starts[b]);
        let end = usize::from(starts[b + 1]);
        let until = from + usize::from(declarations[b]);
        block(plan, offset, b, until, 0, 1, from, end)?;
    }
    Ok(())
}
