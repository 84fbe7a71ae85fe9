// The memory view: a part of whichever memory is wholly current.
#![tactic(auto)]

ghost use Rattle.std.specs.Prelude.{◌≡◌, ◌-◌, ◌≤◌, length};
ghost use Rattle.model.specs.Verdicts.{Accepted};
ghost use Rattle.view.specs.Viewing.{all_current, memory_view_answer, viewed_side, viewed_place, memory_view, memory_side};

use memories::first_stale;
use model::{Fault, Side, Verdict};

// Whether the cells `from` up to `end` are all current in a memory.
#[tactic(auto, using(crate::proofs::Views::no_stale))]
fn all_current(copies: &[u64], latest: &[u64], from: usize, end: usize) -> bool
    requires { (from ≤ end) × (end ≤ length copies.now) × (end ≤ length latest.now) }
    ensures { result ≡ all_current copies.now latest.now from (end - from) }
{
    first_stale(copies, latest, 1, from, end) == end
}

// The side whose cells `first` up to `end` the view is, or 23 or 24.
pub fn memory_side(
    host: &[u64],
    card: &[u64],
    latest: &[u64],
    first: u64,
    end: u64,
) -> Result<Side, Fault>
    ensures { result ≡ memory_side host.now card.now latest.now first end }
{
    let shortest = host.len().min(card.len().min(latest.len()));
    if (end <= first) | ((shortest as u64) < end) {
        return Err(Fault::Refused(23, 0));
    }
    let from = first as usize;
    let to = end as usize;
    if all_current(host, latest, from, to) {
        return Ok(Side::Host);
    }
    if all_current(card, latest, from, to) {
        return Ok(Side::Card);
    }
    Err(Fault::Refused(24, 0))
}

// The memory view's answer: accepted, 23 or 24.
pub fn memory_view_answer(
    host: &[u64],
    card: &[u64],
    latest: &[u64],
    first: u64,
    end: u64,
) -> Verdict
    ensures { result ≡ memory_view_answer host.now card.now latest.now first end }
{
    memory_side(host, card, latest, first, end)?;
    Ok(())
}

// The cells `first` up to `end` as a part of the host memory if they are all current there, else of the card memory; empty where the answer refuses.
#[tactic(auto, using(crate::proofs::Views::part_inside))]
pub fn memory_view<'a>(
    host: &'a [u64],
    card: &'a [u64],
    latest: &[u64],
    first: u64,
    end: u64,
) -> &'a [u64]
    ensures cells { result.now ≡ memory_view host.now card.now latest.now first end }
    ensures own { memory_view_answer host.now card.now latest.now first end ≡ Accepted → result.ref_ptr ≡ viewed_place host.entry.ref_ptr card.entry.ref_ptr (viewed_side host.now latest.now first end) first }
{
    let from = first as usize;
    let to = end as usize;
    match memory_side(host, card, latest, first, end) {
        Ok(Side::Host) => &host[from..to],
        Ok(Side::Card) => &card[from..to],
        Err(_) => &host[..0],
    }
}
