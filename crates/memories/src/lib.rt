// The cells `from` up to `to` of a lent memory, or those of them at a step: the first stale one, putting a stamp in them, copying them; the same of whichever side is meant.
// A step is the byte of a record, 0 and 1 mean each cell: to make a distance of it before each record would cost a tenth of a record of one cell.
#![tactic(auto)]

ghost use Rattle.std.specs.Prelude.{◌≡◌, true, ℕ, ◌+◌, ◌≤◌, ◌<◌, length, get_or};
ghost use Rattle.model.specs.Records.{distance};
ghost use Rattle.memories.specs.Inner.Ranges.{Room, AllCurrent, CurrentTo, Passed, FirstStale, Changed, of_side, ChangedOn};

use stepped::{copy_step, fill_step};

pub mod flags;
mod stepped;

// Whether two parts of memories are the same. No pair ends it early, so that the compiler compares several at a time: `==` takes three times as long.
fn same(copies: &[u64], latest: &[u64]) -> bool
    requires { length copies.now ≡ length latest.now }
    ensures { result ≡ true → (k : ℕ) → k < length copies.now → get_or copies.now k 0 ≡ get_or latest.now k 0 }
{
    let mut all = true;
    for (copy, last) in copies.iter().zip(latest) {
        all &= copy == last;
    }
    all
}

// Up to which cell they are all current, by blocks of 8.
fn blocks_current(copies: &[u64], latest: &[u64], from: usize, to: usize) -> usize
    requires { Room from to copies.now × Room from to latest.now }
    ensures { CurrentTo copies.now latest.now from to result }
{
    let blocks = (to - from) / 8;
    for block in 0..blocks {
        let c = from + 8 * block;
        if !same(&copies[c..c + 8], &latest[c..c + 8]) {
            return c;
        }
    }
    from + 8 * blocks
}

// Up to where the cells `from`, `from` + step and so on are seen to be current at once: each cell goes by blocks, others go one by one.
fn seen_current(copies: &[u64], latest: &[u64], step: usize, from: usize, to: usize) -> usize
    requires { Room from to copies.now × Room from to latest.now }
    ensures { Passed copies.now latest.now (distance step) from to result }
{
    if step <= 1 {
        blocks_current(copies, latest, from, to)
    } else {
        from
    }
}

// The first of them below `to` whose copy is stale, `to` if none is. Its last loop serves every step: a loop for each would keep the compiler from putting this in place.
pub fn first_stale(copies: &[u64], latest: &[u64], step: usize, from: usize, to: usize) -> usize
    requires { (step < 256) × Room from to copies.now × Room from to latest.now }
    ensures { FirstStale copies.now latest.now (distance step) from to result }
{
    let mut c = seen_current(copies, latest, step, from, to);
    let distance = if step <= 1 { 1 } else { step };
    // No `step_by`: it tests twice at each cell, and takes 1.3 times as long.
    while c < to {
        if copies[c] != latest[c] {
            return c;
        }
        c += distance;
    }
    to
}

// Puts a stamp in the cells `from` up to `to`. The slice's own `fill` stores its last cell apart, and takes 1.4 times as long for few cells.
pub fn fill(memory: &mut [u64], from: usize, to: usize, stamp: u64)
    requires { Room from to memory.old }
    ensures { Changed 1 from to (λ c. stamp) memory.old memory.new }
{
    for cell in memory[from..to].iter_mut() {
        *cell = stamp;
    }
}

// Copies them from one memory to another. Not by the slice's own `copy_from_slice`: it would ask who links the archive for `memmove`.
pub fn copy_cells(source: &[u64], target: &mut [u64], from: usize, to: usize)
    requires { Room from to source.now × Room from to target.old }
    ensures { Changed 1 from to (λ c. get_or source.now c 0) target.old target.new }
{
    for c in from..to {
        target[c] = source[c];
    }
}

// Puts a stamp in the cells `from`, `from` + step and so on below `to`. Where that is each cell, it goes the fast way.
pub fn fill_by(memory: &mut [u64], step: usize, from: usize, to: usize, stamp: u64)
    requires { (step < 256) × Room from to memory.old }
    ensures { Changed (distance step) from to (λ c. stamp) memory.old memory.new }
{
    if step <= 1 {
        fill(memory, from, to, stamp);
    } else {
        fill_step(memory, step, from, to, stamp);
    }
}

// Copies them from one memory to another.
fn copy_by(source: &[u64], target: &mut [u64], step: usize, from: usize, to: usize)
    requires { (step < 256) × Room from to source.now × Room from to target.old }
    ensures { Changed (distance step) from to (λ c. get_or source.now c 0) target.old target.new }
{
    if step <= 1 {
        copy_cells(source, target, from, to);
    } else {
        copy_step(source, target, step, from, to);
    }
}

// The memory of a side.
fn memory_on<'a>(on_card: bool, host: &'a [u64], card: &'a [u64]) -> &'a [u64]
    ensures { result.now ≡ of_side on_card host.now card.now }
{
    if on_card { card } else { host }
}

// The first of them whose copy on a side is stale, `to` if none is.
pub fn stale_on<'a>(
    on_card: bool,
    host: &'a [u64],
    card: &'a [u64],
    latest: &[u64],
    step: usize,
    from: usize,
    to: usize,
) -> usize
    requires { (step < 256) × Room from to host.now × Room from to card.now × Room from to latest.now }
    ensures { FirstStale (of_side on_card host.now card.now) latest.now (distance step) from to result }
{
    first_stale(memory_on(on_card, host, card), latest, step, from, to)
}

// Puts a stamp in them on a side.
pub fn fill_on(
    on_card: bool,
    host: &mut [u64],
    card: &mut [u64],
    step: usize,
    from: usize,
    to: usize,
    stamp: u64,
)
    requires { (step < 256) × Room from to host.old × Room from to card.old }
    ensures { ChangedOn on_card (distance step) from to (λ c. stamp) host.old card.old host.new card.new }
{
    if on_card {
        fill_by(card, step, from, to, stamp);
    } else {
        fill_by(host, step, from, to, stamp);
    }
}

// Copies them to a side from the other.
pub fn copy_on(
    on_card: bool,
    host: &mut [u64],
    card: &mut [u64],
    step: usize,
    from: usize,
    to: usize,
)
    requires { (step < 256) × Room from to host.old × Room from to card.old }
    ensures { ChangedOn on_card (distance step) from to (λ c. get_or (of_side on_card card.old host.old) c 0) host.old card.old host.new card.new }
{
    if on_card {
        copy_by(host, card, step, from, to);
    } else {
        copy_by(card, host, step, from, to);
    }
}
