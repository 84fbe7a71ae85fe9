// Number 26 of the expander: the products of the counts of fixed loops around a call and inside the pass that it calls.
#![tactic(auto)]

ghost use Rattle.std.specs.Prelude.{◌≡◌, max, ◌≤◌, ◌<◌};
ghost use Rattle.model.specs.Blocks.{largest};
ghost use Rattle.model.specs.Rows.{answer_of};
ghost use Rattle.reading.specs.Bytes.{body_count, records_in};
ghost use Rattle.reading.specs.Inner.Places.{Inside};
ghost use Rattle.contents.specs.Found.{found};
ghost use Rattle.format.specs.Plans.{declared_plan_of};
ghost use Rattle.format.specs.Inner.Walks.{block_between, body0_between};
ghost use Rattle.sizes.specs.Inner.Sizes.{DeclaredFile};
ghost use Rattle.products.specs.Products.{call_rows};
ghost use Rattle.products.specs.Inner.Counts.{Within, Counted, too_many};

use contents::Opened;
use model::{Fault, Verdict};
use passes::extent_of;
use reading::kinds::{CALL, MOST_PRODUCT};
use reading::{Fields, first_arm, record_at, second_arm, turns_of};
use sizes::body0_end;

// The largest product of the counts of fixed loops along a nesting of the records from `from` up to `end`.
fn largest(plan: &[u8], bodies: usize, from: usize, end: usize) -> usize
    requires { (from ≤ end) × (end ≤ 1024) × Inside plan.now bodies end × Counted plan.now from end }
    ensures { result ≡ largest (block_between plan.now from end) }
{
    let mut most: usize = 1;
    let mut r = from;
    // Not a range: a step is a record with its arms.
    while r < end {
        let x = record_at(plan, bodies, r);
        let second = r + 1 + first_arm(x);
        let next = second + second_arm(x);
        let one = largest(plan, bodies, r + 1, second);
        let two = largest(plan, bodies, second, next);
        most = most.max(turns_of(x) * one.max(two));
        r = next;
    }
    most
}

// Whether a record with the fields x is a call whose pass, inside fixed loops with the product `around`, has a product that passes 4,096. A pass by itself
// has none: opening has tested it.
#[tactic(auto, using(crate::proofs::Counts::alone_around))]
fn too_many(plan: &[u8], o: Opened, around: usize, x: Fields) -> bool
    requires { DeclaredFile plan.now × (o ≡ found plan.now) × (around ≤ 4096) × (x.kind ≡ 8 → (1 ≤ x.p) × (x.p < body_count plan.now)) }
    ensures { result ≡ too_many plan.now around x }
{
    if x.kind != CALL {
        return false;
    }
    if around == 1 {
        return false;
    }
    let e = extent_of(o, x.p as usize);
    let inside = largest(plan, e.bodies, e.from + e.declarations, e.from + e.records);
    MOST_PRODUCT < around * inside
}

// Number 26 of the calls among the records of body 0 from `from` up to `end`, inside fixed loops with the product `around`.
fn calls_between(plan: &[u8], o: Opened, around: usize, from: usize, end: usize) -> Verdict
    requires { DeclaredFile plan.now × (o ≡ found plan.now) × (from ≤ end) × (end ≤ records_in plan.now 0) × Within plan.now 0 around from end }
    ensures { result ≡ answer_of (call_rows (declared_plan_of plan.now).passes around (body0_between plan.now from end)) }
{
    let mut r = from;
    // Not a range: a step is a record with its arms.
    while r < end {
        let x = record_at(plan, o.offset as usize, r);
        if too_many(plan, o, around, x) {
            return Err(Fault::Refused(26, r as u16));
        }
        let second = r + 1 + first_arm(x);
        let next = second + second_arm(x);
        let within = around * turns_of(x);
        if r + 1 < next {
            calls_between(plan, o, within, r + 1, second)?;
            calls_between(plan, o, within, second, next)?;
        }
        r = next;
    }
    Ok(())
}

// Number 26 of all calls of body 0.
pub fn all_calls(plan: &[u8], o: Opened) -> Verdict
    requires { DeclaredFile plan.now × (o ≡ found plan.now) }
    ensures { result ≡ answer_of (call_rows (declared_plan_of plan.now).passes 1 (declared_plan_of plan.now).body0) }
{
    calls_between(plan, o, 1, 0, body0_end(o))
}
