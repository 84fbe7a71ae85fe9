// The expander: a declared plan that the judge accepts, written as the file of a plain plan.
#![tactic(auto)]

ghost use Rattle.std.specs.Prelude.{◌≡◌, ◌≤◌, length};
ghost use Rattle.model.specs.Verdicts.{Accepted};
ghost use Rattle.contents.specs.Found.{found};
ghost use Rattle.format.specs.Opening.{opened};
ghost use Rattle.judge.specs.Judged.{judged};
ghost use Rattle.model.specs.Blocks.{size};
ghost use Rattle.model.specs.Rows.{answer_of};
ghost use Rattle.sizes.specs.Inner.Sizes.{DeclaredFile, Places};
ghost use Rattle.files.specs.Expansions.{expansion_of, expansion_file};
ghost use Rattle.expand.specs.Expanded.{expansion_rows, expand_answer, expanded, length_of_expansion};

use contents::Opened;
use format::open;
use judge::judge_opened;
use model::{Fault, Verdict};
use products::all_calls;
use reading::byte;
use reading::kinds::{MOST_EXPANDED, PLACES};
use sizes::{expansion_size, places};
use writer::Expansion;

// How long the expansion's file is, where it has so many records.
fn file_length(plan: &[u8], records: u32) -> u32
    requires { DeclaredFile plan.now × (records ≡ size (expansion_of plan.now).body) × (records ≤ 1024) }
    ensures { result ≡ length (expansion_file plan.now) }
{
    4 + 2 * (byte(plan, 1) as u32) + 4 + 8 * records + 2
}

// 16 and 26, of an expansion of so many records.
#[tactic(auto, using(crate::proofs::Laws::Answers::too_large))]
fn expansion_tests(plan: &[u8], o: Opened, records: u32) -> Verdict
    requires { DeclaredFile plan.now × (o ≡ found plan.now) × (records ≡ size (expansion_of plan.now).body) }
    ensures { result ≡ answer_of (expansion_rows plan.now) }
{
    if MOST_EXPANDED < records {
        return Err(Fault::Refused(16, 0));
    }
    all_calls(plan, o)
}

// 16, 26, 17, or accepted with the expansion's file written, where the judge accepts the plan and the places are those of its expansion.
fn expand_placed(plan: &[u8], o: Opened, places: &[u32; PLACES], out: &mut [u8]) -> Verdict
    requires { (Accepted ≡ judged plan.now) × (o ≡ found plan.now) × Places plan.now places.now }
    ensures answer { result ≡ expand_answer plan.now out.old }
    ensures output { out.new ≡ expanded plan.now out.old }
{
    let records = expansion_size(o, places);
    expansion_tests(plan, o, records)?;
    if out.len() < (file_length(plan, records) as usize) {
        return Err(Fault::Refused(17, 0));
    }
    Expansion { plan, o, places }.put_file(out, records);
    Ok(())
}

// The judge's answer, 16, 26, 17, or accepted with the expansion's file written over the front of the output; of the plan file opening gave o.
pub fn expand_judged(
    plan: &[u8],
    o: Result<Opened, Fault>,
    out: &mut [u8],
    answer: Verdict,
) -> Verdict
    requires { (o ≡ opened plan.now) × (answer ≡ judged plan.now) }
    ensures answer { result ≡ expand_answer plan.now out.old }
    ensures output { out.new ≡ expanded plan.now out.old }
{
    let o = o?;
    answer?;
    let places = places(plan, o);
    expand_placed(plan, o, &places, out)
}

// Expands a plan file of any bytes into the output.
pub fn expand(plan: &[u8], out: &mut [u8]) -> Verdict
    ensures answer { result ≡ expand_answer plan.now out.old }
    ensures output { out.new ≡ expanded plan.now out.old }
{
    let o = open(plan);
    let answer = judge_opened(plan, o);
    expand_judged(plan, o, out, answer)
}

// How many records the expansion has.
fn expansion_records(plan: &[u8], o: Opened) -> u32
    requires { DeclaredFile plan.now × (o ≡ found plan.now) }
    ensures { result ≡ size (expansion_of plan.now).body }
{
    expansion_size(o, &places(plan, o))
}

// How long an output the expansion of a plan file of any bytes needs: the length of its file, or the answer that every output gets.
pub fn expansion_length(plan: &[u8]) -> Result<u32, Fault>
    ensures { result ≡ length_of_expansion plan.now }
{
    let o = open(plan)?;
    judge_opened(plan, Ok(o))?;
    let records = expansion_records(plan, o);
    expansion_tests(plan, o, records)?;
    Ok(file_length(plan, records))
}
