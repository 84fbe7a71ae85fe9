// What the declarations of a called pass give, written as records at the front of the part of the output that is lent.
#![tactic(auto)]

ghost use Rattle.std.specs.Prelude.{◌≡◌, ◌+◌, ◌*◌, ◌≤◌, ◌<◌, length};
ghost use Rattle.model.specs.Blocks.{size};
ghost use Rattle.reading.specs.Inner.Places.{Inside};
ghost use Rattle.files.specs.Files.{record_bytes, fields};
ghost use Rattle.files.specs.Inner.Short.{block_fields};
ghost use Rattle.files.specs.Inner.Given.{given_by, declared_from};
ghost use Rattle.given.specs.Inner.Over.{DeclarationsAt, over, bytes_of};

use reading::kinds::{MARK, NEED, R, W};
use reading::{Fields, record_at};

// A record, byte by byte: as an array that is copied it can go by the stack, and what is loaded again so soon waits.
pub fn put_record(out: &mut [u8], x: Fields)
    requires { 8 ≤ length out.old }
    ensures { out.new ≡ over (record_bytes x) out.old }
{
    let [p0, p1] = x.p.to_le_bytes();
    let [q0, q1] = x.q.to_le_bytes();
    out[0] = x.kind;
    out[1] = x.side;
    out[2] = x.array;
    out[3] = x.step;
    out[4] = p0;
    out[5] = p1;
    out[6] = q0;
    out[7] = q1;
}

// A need or a mark, of kind 4 or 5.
pub fn put_given(out: &mut [u8], kind: u8, side: u8, array: u8)
    requires { 8 ≤ length out.old }
    ensures { out.new ≡ over (record_bytes (fields kind side array 0 0)) out.old }
{
    put_record(
        out,
        Fields {
            kind,
            side,
            array,
            step: 0,
            p: 0,
            q: 0,
        },
    );
}

// What a declaration gives; the answer is how many records that is.
pub fn put_declaration(out: &mut [u8], x: Fields) -> usize
    requires { (x.side < 2) × (8 * size (given_by x) ≤ length out.old) }
    ensures size { result ≡ size (given_by x) }
    ensures bytes { out.new ≡ over (bytes_of (block_fields (given_by x))) out.old }
{
    let Fields { side, array, .. } = x;
    if x.kind == W {
        put_given(out, MARK, side, array);
        return 1;
    }
    put_given(out, NEED, side, array);
    if x.kind == R {
        return 1;
    }
    put_given(&mut out[8..], MARK, side, array);
    2
}

// What the declarations from record `from` on give, so many of them; the answer is how many records that is.
pub fn put_declarations(
    plan: &[u8],
    bodies: usize,
    out: &mut [u8],
    from: usize,
    count: usize,
) -> usize
    requires { DeclarationsAt plan.now from count × Inside plan.now bodies (from + count) × (8 * size (declared_from plan.now from count) ≤ length out.old) }
    ensures size { result ≡ size (declared_from plan.now from count) }
    ensures bytes { out.new ≡ over (bytes_of (block_fields (declared_from plan.now from count))) out.old }
{
    let mut n: usize = 0;
    for i in 0..count {
        let x = record_at(plan, bodies, from + i);
        n += put_declaration(&mut out[8 * n..], x);
    }
    n
}
