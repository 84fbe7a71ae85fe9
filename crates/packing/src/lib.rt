// Answers packed into 64 bits, for callers in C and Rust.
#![tactic(auto)]

ghost use Rattle.std.specs.Prelude.{◌≡◌, Err};
ghost use Rattle.model.specs.Verdicts.{values_of};
ghost use Rattle.packing.specs.Packed.{packed, packed_answer, packed_part, packed_length, packed_view, figures_of};

use model::{End, Fault, Part, Side, Values, Verdict, values_of};

// Number, place or record, cell, kind.
fn pack(kind: u8, v: Values) -> u64
    ensures { result ≡ packed kind v }
{
    u64::from(v.number)
        + (u64::from(v.place) << 16)
        + (u64::from(v.cell) << 32)
        + (u64::from(kind) << 48)
}

// A refusal's number alone.
fn refused(e: Fault) -> u64
    ensures { result ≡ (values_of 0 (Err e)).number }
{
    u64::from(values_of(Err(e), 0).number)
}

// An answer about a file of this kind; a stop has the number `stop`.
#[tactic(auto, unfolding(crate::specs::Packed::packed_answer))]
pub fn pack_answer(kind: u8, v: Verdict, stop: u8) -> u64
    ensures { result ≡ packed_answer kind stop v }
{
    pack(kind, values_of(v, stop))
}

// A part of the plan: the answer's number, where the part begins, its length.
#[tactic(auto, unfolding(crate::specs::Packed::packed_part))]
pub fn pack_part(part: Result<Part, Fault>) -> u64
    ensures { result ≡ packed_part part }
{
    match part {
        Ok(p) => pack(
            0,
            Values {
                number: 0,
                place: p.from,
                cell: p.size,
            },
        ),
        Err(e) => refused(e),
    }
}

// A length about a file of this kind: the answer's number, the place or the length, the kind.
#[tactic(auto, unfolding(crate::specs::Packed::packed_length))]
pub fn pack_length(kind: u8, length: Result<u32, Fault>) -> u64
    ensures { result ≡ packed_length kind length }
{
    match length {
        Ok(bytes) => (u64::from(bytes) << 16) + (u64::from(kind) << 48),
        Err(e) => pack(
            kind,
            Values {
                cell: 0,
                ..values_of(Err(e), 0)
            },
        ),
    }
}

// A view of a memory: the answer's number, the side.
#[tactic(auto, unfolding(crate::specs::Packed::packed_view))]
pub fn pack_view(view: Result<Side, Fault>) -> u64
    ensures { result ≡ packed_view view }
{
    match view {
        Ok(side) => (side as u64) << 16,
        Err(e) => refused(e),
    }
}

// The figures of a run that is done.
#[tactic(auto, unfolding(crate::specs::Packed::figures_of))]
pub fn put_figures(e: Result<End, Fault>, figures: &mut [u64; 5])
    ensures { figures.new ≡ figures_of e figures.old }
{
    if let Ok(e) = e {
        *figures = [e.used, e.host_flags, e.card_flags, e.on_host, e.on_card].map(u64::from);
    }
}
