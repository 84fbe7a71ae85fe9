// Writing the expansion's file: each function writes at the front of the part of the output that it is lent.
#![tactic(auto)]

ghost use Rattle.std.specs.Prelude.{◌≡◌, ℕ, [], ◌∷◌, ◌++◌, ◌+◌, ◌*◌, ◌-◌, ◌≤◌, ◌<◌, length, take, get_or};
ghost use Rattle.model.specs.Blocks.{size};
ghost use Rattle.reading.specs.Bytes.{array_count, records_in};
ghost use Rattle.contents.specs.Found.{found};
ghost use Rattle.sums.specs.Sums.{check_bytes};
ghost use Rattle.files.specs.Files.{u16_bytes, record_bytes};
ghost use Rattle.files.specs.Inner.Short.{block_fields};
ghost use Rattle.files.specs.Expansions.{expansion_file};
ghost use Rattle.passes.specs.Inner.Passes.{PassAt};
ghost use Rattle.sizes.specs.Inner.Sizes.{DeclaredFile, called, record_size, place, Places};
ghost use Rattle.given.specs.Inner.Over.{over, bytes_of};
ghost use Rattle.writer.specs.Inner.Pieces.{Arms, grown_second, nested, piece, pieces, contents_bytes};

use check_bytes::check_sums;
use contents::Opened;
use given::{put_declarations, put_record};
use passes::{Extent, extent_of};
use reading::kinds::{BRANCH, CALL, PLACES, PLAIN};
use reading::{Fields, first_arm, record_at, second_arm};
use sizes::body0_end;

// Bytes as they are. Not by the slice's own `copy_from_slice`: it would ask who links the archive for `memmove`.
pub fn put_bytes(out: &mut [u8], bytes: &[u8])
    requires { length bytes.now ≤ length out.old }
    ensures { out.new ≡ over bytes.now out.old }
{
    for i in 0..bytes.len() {
        out[i] = bytes[i];
    }
}

// What stands for a call of the pass at e: what its declarations give, and its other records byte for byte.
pub fn put_call(plan: &[u8], e: Extent, out: &mut [u8])
    requires { PassAt plan.now e × (8 * size (called plan.now e.body) ≤ length out.old) }
    ensures { out.new ≡ over (bytes_of (block_fields (called plan.now e.body))) out.old }
{
    let made = put_declarations(plan, e.bodies, out, e.from, e.declarations);
    let first = e.bodies + 8 * (e.from + e.declarations);
    let last = e.bodies + 8 * (e.from + e.records);
    put_bytes(&mut out[8 * made..], &plan[first..last]);
}

// How many records the expansion has for an arm of `count` records, from record `from` on.
pub fn grown(places: &[u32; PLACES], from: usize, count: usize) -> u16
    requires { (from + count ≤ 1024) × (get_or places.now from 0 ≤ get_or places.now (from + count) 0) × (get_or places.now (from + count) 0 ≤ 1024) }
    ensures { result ≡ get_or places.now (from + count) 0 - get_or places.now from 0 }
{
    (places[from + count] - places[from]) as u16
}

// Q of a branch or a loop, record r of body 0 with the fields x: of a branch grown to fit, of a fixed loop as it is.
pub fn second_field(places: &[u32; PLACES], r: usize, x: Fields) -> u16
    requires { Arms places.now r x }
    ensures { result ≡ grown_second places.now r x }
{
    if x.kind == BRANCH {
        grown(places, r + 1 + first_arm(x), second_arm(x))
    } else {
        x.q
    }
}

// A branch or a loop, record r of body 0 with the fields x, with its arm counts grown to fit.
pub fn put_nested(places: &[u32; PLACES], out: &mut [u8], r: usize, x: Fields)
    requires { Arms places.now r x × (8 ≤ length out.old) }
    ensures { out.new ≡ over (record_bytes (nested places.now r x)) out.old }
{
    let p = grown(places, r + 1, first_arm(x));
    let q = second_field(places, r, x);
    put_record(
        out,
        Fields {
            side: 0,
            array: 0,
            step: 0,
            p,
            q,
            ..x
        },
    );
}

// The header of a plain plan.
pub fn put_header(out: &mut [u8], arrays: u8)
    requires { 4 ≤ length out.old }
    ensures { out.new ≡ over (2 ∷ arrays ∷ 1 ∷ 0 ∷ []) out.old }
{
    put_bytes(out, &[PLAIN, arrays, 1, 0]);
}

// The entry of a body of so many records, none of them a declaration.
pub fn put_entry(out: &mut [u8], records: u16)
    requires { 4 ≤ length out.old }
    ensures { out.new ≡ over (u16_bytes records ++ (0 ∷ 0 ∷ [])) out.old }
{
    let [low, high] = records.to_le_bytes();
    put_bytes(out, &[low, high, 0, 0]);
}

// The check bytes of the n bytes before them.
pub fn put_checks(out: &mut [u8], n: usize)
    requires { n + 2 ≤ length out.old }
    ensures { out.new ≡ over (take n out.old ++ check_bytes (take n out.old)) out.old }
{
    let s = check_sums(&out[..n]);
    put_bytes(&mut out[n..], &[s.plain, s.weighted]);
}

// Header and contents: the arrays of the plan, and one body of so many records.
pub fn put_contents(plan: &[u8], out: &mut [u8], arrays: u8, records: u16)
    requires { (arrays ≡ array_count plan.now) × (4 + 2 * arrays ≤ length plan.now) × (4 + 2 * arrays + 4 ≤ length out.old) }
    ensures written { out.new ≡ over (contents_bytes plan.now records) out.old }
    ensures bytes { (i : ℕ) → get_or plan.now i 0 < 256 }
{
    let entry = 4 + 2 * (arrays as usize);
    put_header(out, arrays);
    put_bytes(&mut out[4..], &plan[4..entry]);
    put_entry(&mut out[entry..], records);
}

// What the records are written by: the plan, what opening found in it, and where each record of body 0 begins in the expansion.
#[derive(Clone, Copy)]
pub struct Expansion<'a> {
    pub plan: &'a [u8],
    pub o: Opened,
    pub places: &'a [u32; PLACES],
    ghost declared: { DeclaredFile plan.now },
    ghost finds: { o ≡ found plan.now },
    ghost placed: { Places plan.now places.now },
}

impl Expansion<'_> {
    // What stands for record r of body 0: a call's records, or a branch or a loop with its arm counts grown to fit.
    pub fn put_piece(&self, out: &mut [u8], r: usize)
        requires { (r < records_in self.now.plan.now 0) × (place self.now.plan.now (records_in self.now.plan.now 0) ≤ 1024) × (8 * record_size self.now.plan.now r ≤ length out.old) }
        ensures { out.new ≡ over (bytes_of (piece self.now.plan.now r)) out.old }
    {
        let x = record_at(self.plan, self.o.offset as usize, r);
        if x.kind == CALL {
            put_call(self.plan, extent_of(self.o, x.p as usize), out);
        } else {
            put_nested(self.places, out, r, x);
        }
    }

    // All records of the expansion.
    pub fn put_body(&self, out: &mut [u8])
        requires { (place self.now.plan.now (records_in self.now.plan.now 0) ≤ 1024) × (8 * place self.now.plan.now (records_in self.now.plan.now 0) ≤ length out.old) }
        ensures { out.new ≡ over (bytes_of (pieces self.now.plan.now (records_in self.now.plan.now 0))) out.old }
    {
        for r in 0..body0_end(self.o) {
            let at = 8 * (self.places[r] as usize);
            self.put_piece(&mut out[at..], r);
        }
    }

    // The expansion's file: header and contents, then the records in the part behind them, then the check bytes.
    pub fn put_file(&self, out: &mut [u8], records: u32)
        requires { (records ≡ place self.now.plan.now (records_in self.now.plan.now 0)) × (records ≤ 1024) × (length (expansion_file self.now.plan.now) ≤ length out.old) }
        ensures { out.new ≡ over (expansion_file self.now.plan.now) out.old }
    {
        let arrays = self.o.arrays;
        let bodies = 8 + 2 * (arrays as usize);
        put_contents(self.plan, out, arrays, records as u16);
        self.put_body(&mut out[bodies..]);
        put_checks(out, bodies + 8 * (records as usize));
    }
}
