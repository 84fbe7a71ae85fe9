// The cells `from`, `from` + step and so on below `to` of a lent memory: no other cell is touched.
// No `step_by`: it tests twice at each cell, and takes two to three times as long.
ghost use Rattle.std.specs.Prelude.{get_or};
ghost use Rattle.memories.specs.Inner.Ranges.{Room, IsStep, Changed};

// Puts a stamp in them.
pub fn fill_step(memory: &mut [u64], step: usize, from: usize, to: usize, stamp: u64)
    requires { IsStep step × Room from to memory.old }
    ensures { Changed step from to (λ c. stamp) memory.old memory.new }
{
    let mut at = from;
    while at < to {
        memory[at] = stamp;
        at += step;
    }
}

// Copies them from one memory to another.
pub fn copy_step(source: &[u64], target: &mut [u64], step: usize, from: usize, to: usize)
    requires { IsStep step × Room from to source.now × Room from to target.old }
    ensures { Changed step from to (λ c. get_or source.now c 0) target.old target.new }
{
    let mut c = from;
    while c < to {
        target[c] = source[c];
        c += step;
    }
}
