// The functions of `exports` for C and Rust, one export for each: include/cuplihang.h declares them.
#![tactic(auto)]

ghost use Rattle.std.specs.Prelude.{◌≡◌};
ghost use Rattle.exports.specs.Exported.{packed_for, PackedCheck, PackedRun, PackedLog, EntryOf};
ghost use Rattle.check_bytes.specs.Packed.{packed_back_sums, packed_joined_sums};
ghost use Rattle.packing.specs.Packed.{packed_answer, packed_part, packed_length, packed_view, tally_of};
ghost use Rattle.format.specs.Opening.{opening, opened, kind_of_opened};
ghost use Rattle.format.specs.Views.{body_part};
ghost use Rattle.judge.specs.Judged.{judged};
ghost use Rattle.view.specs.Viewing.{memory_side};
ghost use Rattle.expand.specs.Expanded.{expand_answer, expanded, length_of_expansion};
ghost use Rattle.run.specs.Running.{lent};
ghost use Rattle.sheet.specs.Sheets.{sheet_answer, sheet_figures};

use sheet::FIGURES;

// Opens a plan.
#[unsafe(no_mangle)]
pub extern "C" fn plan_open(plan: &[u8]) -> u64
    ensures { result ≡ packed_for plan.now 0 (opening plan.now) }
{
    exports::plan_open(plan)
}

// Where the records of a body stand in the plan.
#[unsafe(no_mangle)]
pub extern "C" fn plan_body_view(plan: &[u8], body: u64) -> u64
    ensures { result ≡ packed_part (body_part plan.now body) }
{
    exports::plan_body_view(plan, body)
}

// Checks a plan.
#[unsafe(no_mangle)]
pub extern "C" fn plan_check(plan: &[u8]) -> u64
    ensures { PackedCheck plan.now result }
{
    exports::plan_check(plan)
}

// Judges a plan.
#[unsafe(no_mangle)]
pub extern "C" fn plan_judge(plan: &[u8]) -> u64
    ensures { result ≡ packed_for plan.now 0 (judged plan.now) }
{
    exports::plan_judge(plan)
}

// Expands a plan into the output.
#[unsafe(no_mangle)]
pub extern "C" fn plan_expand(plan: &[u8], out: &mut [u8]) -> u64
    ensures answer { result ≡ packed_for plan.now 0 (expand_answer plan.now out.old) }
    ensures output { out.new ≡ expanded plan.now out.old }
{
    exports::plan_expand(plan, out)
}

// How long an output the expansion needs.
#[unsafe(no_mangle)]
pub extern "C" fn plan_expansion_length(plan: &[u8]) -> u64
    ensures { result ≡ packed_length (kind_of_opened (opened plan.now)) (length_of_expansion plan.now) }
{
    exports::plan_expansion_length(plan)
}

// Runs a plan on lent memories.
#[unsafe(no_mangle)]
pub extern "C" fn plan_run(
    plan: &[u8],
    host: &mut [u64],
    card: &mut [u64],
    latest: &mut [u64],
    choices: &[u8],
    tally: &mut [u64; 3],
    figures: &mut [u64; 5],
) -> u64
    ensures { PackedRun plan.now choices.now (lent host.old card.old latest.old (tally_of tally.old)) (lent host.new card.new latest.new (tally_of tally.new)) figures.old figures.new result }
{
    exports::plan_run(plan, host, card, latest, choices, tally, figures)
}

// Which side the view of a memory is of.
#[unsafe(no_mangle)]
pub extern "C" fn plan_memory_view(
    host: &[u64],
    card: &[u64],
    latest: &[u64],
    first: u64,
    end: u64,
) -> u64
    ensures { result ≡ packed_view (memory_side host.now card.now latest.now first end) }
{
    exports::plan_memory_view(host, card, latest, first, end)
}

// The check sums of any bytes.
#[unsafe(no_mangle)]
pub extern "C" fn plan_back_sums(back: &[u8]) -> u64
    ensures { result ≡ packed_back_sums back.now }
{
    exports::plan_back_sums(back)
}

// The check sums of a front and a back, from the front and the back's sums.
#[unsafe(no_mangle)]
pub extern "C" fn plan_joined_sums(front: &[u8], back_sums: u64) -> u64
    ensures { result ≡ packed_joined_sums front.now back_sums }
{
    exports::plan_joined_sums(front, back_sums)
}

// How many of the sequences of length n over one cell stop at each place, and how many pass.
#[unsafe(no_mangle)]
pub extern "C" fn plan_sheet(n: u64, figures: &mut [u64; FIGURES]) -> u64
    ensures answer { result ≡ packed_answer 0 0 (sheet_answer n) }
    ensures output { figures.new ≡ sheet_figures n figures.old }
{
    exports::plan_sheet(n, figures)
}

// A log held against a plan.
#[unsafe(no_mangle)]
pub extern "C" fn plan_log(plan: &[u8], log: &[u8]) -> u64
    ensures { PackedLog plan.now log.now result }
{
    exports::plan_log(plan, log)
}

// The entry that the answer names.
#[unsafe(no_mangle)]
pub extern "C" fn plan_log_entry(plan: &[u8], log: &[u8]) -> u64
    ensures { EntryOf plan.now log.now result }
{
    exports::plan_log_entry(plan, log)
}
