// Numbers 1, 2, 6 and 7: the header and the tail.
#![tactic(auto)]

ghost use Rattle.std.specs.Prelude.{◌≡◌, List, ℕ, ◌≤◌};
ghost use Rattle.model.specs.Rows.{answer_of};
ghost use Rattle.reading.specs.Bytes.{byte_at, kind_of, array_count, body_count, record_count, bodies_at};
ghost use Rattle.frame.specs.Frame.{header_fits, header_rows, tail_rows};

use check_bytes::check_sums;
use model::{Fault, Verdict};
use reading::byte;
use reading::kinds::{DECLARED, MOST_ARRAYS, MOST_BODIES, PLAIN};

// Whether the header's bytes keep their rules.
fn header_fits(kind: u8, arrays: u8, bodies: u8, zero: u8) -> bool
    ensures { (f : List ℕ) → (kind ≡ kind_of f) × (arrays ≡ array_count f) × (bodies ≡ body_count f) × (zero ≡ byte_at f 3) → result ≡ header_fits f }
{
    // Strict `&` and `|` are the rule's own words; `&&` would split into ways through it.
    ((DECLARED <= kind) & (kind <= PLAIN))
        & ((1 <= arrays) & (arrays <= MOST_ARRAYS))
        & ((1 <= bodies) & (bodies <= MOST_BODIES))
        & ((kind == DECLARED) | (bodies == 1))
        & (zero == 0)
}

// Numbers 1 and 2.
#[tactic(auto, using(crate::proofs::Frame::short_stop))]
pub fn header(plan: &[u8]) -> Verdict
    ensures { result ≡ answer_of (header_rows plan.now) }
{
    if plan.len() < 4 {
        return Err(Fault::Refused(1, 0));
    }
    if !header_fits(byte(plan, 0), byte(plan, 1), byte(plan, 2), byte(plan, 3)) {
        return Err(Fault::Refused(2, 0));
    }
    Ok(())
}

// Numbers 6 and 7, of a file with so many records, whose bodies begin at `offset`.
pub fn tail(plan: &[u8], offset: usize, records: usize) -> Verdict
    requires { (offset ≡ bodies_at plan.now) × (offset ≤ 2048) × (records ≡ record_count plan.now) × (records ≤ 1024) }
    ensures { result ≡ answer_of (tail_rows plan.now) }
{
    if plan.len() != offset + 8 * records + 2 {
        return Err(Fault::Refused(6, 0));
    }
    let n = plan.len() - 2;
    let s = check_sums(&plan[..n]);
    let plain = byte(plan, n);
    let weighted = byte(plan, n + 1);
    if !((plain == s.plain) & (weighted == s.weighted)) {
        return Err(Fault::Refused(7, 0));
    }
    Ok(())
}
