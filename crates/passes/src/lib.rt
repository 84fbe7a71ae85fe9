// Where a pass stands in the file, by what opening found.
#![tactic(auto)]

ghost use Rattle.std.specs.Prelude.{◌≡◌, ◌+◌, ◌≤◌, ◌<◌, get_or};
ghost use Rattle.passes.specs.Inner.Passes.{extent_of};

use contents::Opened;

// Where a pass stands: where the bodies begin in the file, its body's number, its first record, how many declarations it has and how many records with them.
#[derive(Clone, Copy)]
pub struct Extent {
    pub bodies: usize,
    pub body: usize,
    pub from: usize,
    pub declarations: usize,
    pub records: usize,
}

// Where body b stands.
pub fn extent_of(o: Opened, b: usize) -> Extent
    requires { (b < 32) × (get_or o.body_starts b 0 ≤ get_or o.body_starts (b + 1) 0) × (get_or o.body_starts (b + 1) 0 ≤ 1024) × (get_or o.declarations b 0 ≤ 1024) }
    ensures { result ≡ extent_of o b }
{
    let starts = o.body_starts;
    let declarations = o.declarations;
    let from = starts[b];
    Extent {
        bodies: o.offset as usize,
        body: b,
        from: from as usize,
        declarations: declarations[b] as usize,
        records: (starts[b + 1] - from) as usize,
    }
}
