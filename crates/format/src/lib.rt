// The plan file: opening it, and the view of a body.
#![tactic(auto)]

ghost use Rattle.std.specs.Prelude.{◌≡◌, ◌+◌, ◌≤◌, length, IfOk};
ghost use Rattle.format.specs.Opening.{opened, kind_of_opened};
ghost use Rattle.format.specs.Views.{body_view_answer, body_at, body_view, body_part};
ghost use Rattle.model.specs.Lists.{further};
ghost use Rattle.model.specs.Verdicts.{Accepted};

use contents::{Opened, outline};
use model::{Fault, Part, Verdict};
use records::all_records;

// Opens a plan file of any bytes.
#[tactic(auto, using(crate::proofs::Opening::opened_front, crate::proofs::Opening::opened_records, crate::proofs::Opening::opened_found))]
pub fn open(plan: &[u8]) -> Result<Opened, Fault>
    ensures { result ≡ opened plan.now }
{
    let o = outline(plan)?;
    all_records(plan, o)?;
    Ok(o)
}

// The kind of a file that opens, 0 of one that does not.
pub fn opened_kind(o: &Result<Opened, Fault>) -> u8
    ensures { result ≡ kind_of_opened o.now }
{
    match o {
        Ok(o) => o.kind,
        Err(_) => 0,
    }
}

// Where the records of a body stand in the caller's bytes.
pub fn body_part(plan: &[u8], body: u64) -> Result<Part, Fault>
    ensures part { result ≡ body_part plan.now body }
    ensures inside { IfOk result (λ p. p.from + p.size ≤ length plan.now) }
{
    let o = open(plan)?;
    if u64::from(o.bodies) <= body {
        return Err(Fault::Refused(25, 0));
    }
    let b = body as usize;
    let starts = o.body_starts;
    let first = starts[b];
    let next = starts[b + 1];
    Ok(Part {
        from: o.offset + 8 * first,
        size: 8 * (next - first),
    })
}

// The body view's answer: an opening's number, or 25.
#[tactic(auto, using(crate::proofs::Views::part_refuses, crate::proofs::Views::part_accepts))]
pub fn body_view_answer(plan: &[u8], body: u64) -> Verdict
    ensures { result ≡ body_view_answer plan.now body }
{
    body_part(plan, body)?;
    Ok(())
}

// The records of a body, as a part of the caller's bytes; empty where the answer refuses.
pub fn body_view<'a>(plan: &'a [u8], body: u64) -> &'a [u8]
    ensures bytes { result.now ≡ body_view plan.now body }
    ensures own { body_view_answer plan.now body ≡ Accepted → result.ref_ptr ≡ further plan.entry.ref_ptr (body_at plan.now body) }
{
    let Ok(part) = body_part(plan, body) else {
        return &plan[..0];
    };
    let from = usize::from(part.from);
    let end = from + usize::from(part.size);
    &plan[from..end]
}
