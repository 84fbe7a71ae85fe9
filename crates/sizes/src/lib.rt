// How many records the expansion has, and where each record of body 0 begins in it.
#![tactic(auto)]

ghost use Rattle.std.specs.Prelude.{◌≡◌, ◌+◌, ◌≤◌, ◌<◌, get_or};
ghost use Rattle.model.specs.Blocks.{size};
ghost use Rattle.reading.specs.Bytes.{body_count, records_in, bodies_at};
ghost use Rattle.reading.specs.Inner.Places.{Inside};
ghost use Rattle.contents.specs.Found.{found};
ghost use Rattle.files.specs.Inner.Given.{given_by, declared_from};
ghost use Rattle.sizes.specs.Inner.Sizes.{DeclaredFile, called, record_size, PassSizes, Places};

use contents::Opened;
use passes::extent_of;
use reading::kinds::{CALL, NAMES, PLACES, R, W};
use reading::{Fields, record_at};

// How many records a declaration gives.
pub fn given_size(x: Fields) -> u32
    ensures { result ≡ size (given_by x) }
{
    if (x.kind == R) | (x.kind == W) { 1 } else { 2 }
}

// How many records the declarations from record `from` on give, so many of them, in a file whose bodies begin at `bodies`.
pub fn declared_size(plan: &[u8], bodies: usize, from: usize, count: usize) -> u32
    requires { (from + count ≤ 1024) × Inside plan.now bodies (from + count) }
    ensures { result ≡ size (declared_from plan.now from count) }
{
    let mut n = 0;
    for i in 0..count {
        n += given_size(record_at(plan, bodies, from + i));
    }
    n
}

// How many records a call of body b becomes, in a file in which opening found o.
pub fn pass_size(plan: &[u8], o: Opened, b: usize) -> u32
    requires { DeclaredFile plan.now × (o ≡ found plan.now) × (1 ≤ b) × (b < body_count plan.now) }
    ensures { result ≡ size (called plan.now b) }
{
    let e = extent_of(o, b);
    declared_size(plan, e.bodies, e.from, e.declarations) + ((e.records - e.declarations) as u32)
}

// The same for each pass.
pub fn pass_sizes(plan: &[u8], o: Opened) -> [u32; NAMES]
    requires { DeclaredFile plan.now × (o ≡ found plan.now) }
    ensures { PassSizes plan.now result }
{
    let bodies = o.bodies as usize;
    let mut sizes = [0; NAMES];
    for b in 1..bodies {
        sizes[b] = pass_size(plan, o, b);
    }
    sizes
}

// How many records stand in the expansion for record r of body 0.
pub fn record_size(plan: &[u8], bodies: usize, sizes: &[u32; NAMES], r: usize) -> u32
    requires { DeclaredFile plan.now × (bodies ≡ bodies_at plan.now) × PassSizes plan.now sizes.now × (r < records_in plan.now 0) }
    ensures { result ≡ record_size plan.now r }
{
    let x = record_at(plan, bodies, r);
    if x.kind == CALL {
        sizes[x.p as usize]
    } else {
        1
    }
}

// Where each record of body 0 begins in the expansion, counted in records; the entry after the last has the expansion's size.
pub fn places(plan: &[u8], o: Opened) -> [u32; PLACES]
    requires { DeclaredFile plan.now × (o ≡ found plan.now) }
    ensures { Places plan.now result }
{
    let bodies = o.offset as usize;
    let sizes = pass_sizes(plan, o);
    let mut places = [0; PLACES];
    let mut n = 0;
    for r in 0..body0_end(o) {
        n += record_size(plan, bodies, &sizes, r);
        places[r + 1] = n;
    }
    places
}

// Where body 0 ends, by what opening found.
pub fn body0_end(o: Opened) -> usize
    requires { get_or o.body_starts 1 0 ≤ 1024 }
    ensures { result ≡ get_or o.body_starts 1 0 }
{
    o.body_starts[1] as usize
}

// How many records the expansion has.
pub fn expansion_size(o: Opened, places: &[u32; PLACES]) -> u32
    requires { get_or o.body_starts 1 0 ≤ 1024 }
    ensures { result ≡ get_or places.now (get_or o.body_starts 1 0) 0 }
{
    places[body0_end(o)]
}
