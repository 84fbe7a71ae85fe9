// Numbers 8 to 10 and 26 of one record.
#![tactic(auto)]

ghost use Rattle.std.specs.Prelude.{◌≡◌, ◌+◌, ◌≤◌, ◌<◌, length};
ghost use Rattle.model.specs.Rows.{answer_of};
ghost use Rattle.reading.specs.Bytes.{array_count, length_at, declarations_in, first_record, bodies_at, fields_at};
ghost use Rattle.rules.specs.Rules.{fields_fit, acts_or_nests, allowed, deepest, record_rows};

use model::{Fault, Verdict};
use reading::kinds::{
    BRANCH, CALL, COPY, DECLARED_DEPTH, FIXED, LOOP, MARK, MOST_PRODUCT, MOST_TURNS, NEED, PLAIN,
    PLAIN_DEPTH, R, READ, RW, W, WRITE,
};
use reading::{Fields, first_arm, header_byte, length_at, nests, second_arm, turns_of};

// The length of an array, zero for a number that no array has.
fn array_size(plan: &[u8], arrays: u8, a: u8) -> u16
    requires { (arrays ≡ array_count plan.now) × (bodies_at plan.now ≤ length plan.now) }
    ensures { a < array_count plan.now → result ≡ length_at plan.now a }
{
    if a < arrays {
        length_at(plan, usize::from(a))
    } else {
        0
    }
}

// Number 8: whether each field keeps its rule.
pub fn fields_fit(plan: &[u8], x: Fields) -> bool
    requires { bodies_at plan.now ≤ length plan.now }
    ensures { result ≡ fields_fit plan.now x }
{
    let arrays = header_byte(plan, 1);
    let bodies = u16::from(header_byte(plan, 2));
    let on_side = x.side < 2;
    let on_array = x.array < arrays;
    let names_none = (x.side == 0) & (x.array == 0);
    let no_step = x.step == 0;
    let kind = x.kind;
    match kind {
        READ | WRITE | COPY => {
            let size = array_size(plan, arrays, x.array);
            on_side & on_array & (x.p < x.q) & (x.q <= size)
        }
        NEED | MARK | R | W | RW => on_side & on_array & no_step & (x.p == 0) & (x.q == 0),
        BRANCH => names_none & no_step,
        LOOP => names_none & no_step & (x.q == 0),
        CALL => names_none & no_step & (x.q == 0) & (1 <= x.p) & (x.p < bodies),
        FIXED => names_none & no_step & ((1 <= x.q) & (x.q <= MOST_TURNS)),
        0 | 10..=15 | 19..=255 => true,
    }
}

// Whether a record has one of kinds 1 to 7, or 9.
fn acts_or_nests(x: Fields) -> bool
    ensures { result ≡ acts_or_nests x }
{
    (READ <= x.kind) & (x.kind <= LOOP) | (x.kind == FIXED)
}

// Number 9: whether the kind is allowed for record r of a body whose declarations end before record `until`.
pub fn kind_allowed(plan: &[u8], body: usize, until: usize, r: usize, x: Fields) -> bool
    requires { (bodies_at plan.now ≤ length plan.now) × (until ≡ first_record plan.now body + declarations_in plan.now body) }
    ensures { result ≡ allowed plan.now body r x }
{
    let kind = x.kind;
    if header_byte(plan, 0) == PLAIN {
        return acts_or_nests(x);
    }
    if body == 0 {
        return (BRANCH <= kind) & (kind <= FIXED);
    }
    if r < until {
        return (R <= kind) & (kind <= RW);
    }
    acts_or_nests(x)
}

// How many branches and loops one may stand inside.
pub fn deepest(plan: &[u8]) -> usize
    requires { bodies_at plan.now ≤ length plan.now }
    ensures { result ≡ deepest plan.now }
{
    if header_byte(plan, 0) == PLAIN {
        PLAIN_DEPTH
    } else {
        DECLARED_DEPTH
    }
}

// Numbers 8, 9, 10 and 26 of record r, which has the fields x; the counts of the fixed loops that hold it have the product `around`. Neither 10 nor 26 can
// hold of a record without arms.
#[tactic(auto, using(crate::proofs::Rules::arm_refused))]
pub fn record_tests(
    plan: &[u8],
    body: usize,
    until: usize,
    depth: usize,
    around: usize,
    end: usize,
    r: usize,
    x: Fields,
) -> Verdict
    requires { (bodies_at plan.now ≤ length plan.now) × (r < end) × (r < 1024) × (around ≤ 4096) × (x ≡ fields_at plan.now r) × (until ≡ first_record plan.now body + declarations_in plan.now body) }
    ensures { result ≡ answer_of (record_rows plan.now body depth around r end) }
{
    let place = r as u16;
    if !fields_fit(plan, x) {
        return Err(Fault::Refused(8, place));
    }
    if !kind_allowed(plan, body, until, r, x) {
        return Err(Fault::Refused(9, place));
    }
    if !nests(x) {
        return Ok(());
    }
    let next = r + 1 + first_arm(x) + second_arm(x);
    let limit = deepest(plan);
    if (end < next) | (limit < depth) {
        return Err(Fault::Refused(10, place));
    }
    if MOST_PRODUCT < around * turns_of(x) {
        return Err(Fault::Refused(26, place));
    }
    Ok(())
}
