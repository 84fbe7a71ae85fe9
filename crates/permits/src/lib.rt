// Numbers 12 to 14: the declarations of a pass, and its records against them.
#![tactic(auto)]

ghost use Rattle.std.specs.Prelude.{◌≡◌, ◌<◌, Err, IfOk, IfErr};
ghost use Rattle.model.specs.Rows.{answer_of, all_rows};
ghost use Rattle.reading.specs.Bytes.{records_in, declarations_in};
ghost use Rattle.passes.specs.Inner.Passes.{PassAt};
ghost use Rattle.permits.specs.Permits.{permit_rows};
ghost use Rattle.permits.specs.Inner.Uses.{ByArray, permitted, use_rows};

use marks::{Declaration, Declared};
use model::{Fault, Verdict};
use passes::Extent;
use reading::kinds::{COPY, MARK, NAMES, R, READ, RW, W, WRITE};
use reading::{Fields, record_at};

// Number 12, or what the pass declares of each array.
pub fn declarations(plan: &[u8], e: Extent) -> Result<Declared, Fault>
    requires { PassAt plan.now e }
    ensures found { IfOk result (λ declared. ByArray plan.now e declared) }
    ensures refused { IfErr result (λ fault. Err fault ≡ answer_of (all_rows (declarations_in plan.now e.body) (permit_rows plan.now e.body))) }
{
    let mut declared: Declared = [None; NAMES];
    for i in 0..e.declarations {
        let r = e.from + i;
        let x = record_at(plan, e.bodies, r);
        let a = x.array as usize;
        if declared[a].is_some() {
            return Err(Fault::Refused(12, r as u16));
        }
        declared[a] = Some(Declaration {
            kind: x.kind,
            side: x.side,
        });
    }
    Ok(declared)
}

// Whether a read or write with the fields x is declared, by what is declared of its array.
pub fn permitted(x: Fields, declared: Option<Declaration>) -> bool
    ensures { result ≡ permitted x declared }
{
    let Some(d) = declared else {
        return false;
    };
    (((x.kind == READ) & (d.kind == R)) | ((x.kind == WRITE) & (d.kind == W)) | (d.kind == RW))
        & (d.side == x.side)
}

// Numbers 13 and 14 of record r, by what is declared of its array.
pub fn use_tests(r: usize, x: Fields, declared: Option<Declaration>) -> Verdict
    requires { r < 1024 }
    ensures { result ≡ answer_of (use_rows r x declared) }
{
    let place = r as u16;
    let allowed = permitted(x, declared);
    if ((READ <= x.kind) & (x.kind <= WRITE)) & !allowed {
        return Err(Fault::Refused(13, place));
    }
    if (COPY <= x.kind) & (x.kind <= MARK) {
        return Err(Fault::Refused(14, place));
    }
    Ok(())
}

// Numbers 13 and 14 of the records after the declarations, by what these declare of each array.
pub fn uses(plan: &[u8], e: Extent, declared: &Declared) -> Verdict
    requires { PassAt plan.now e × ByArray plan.now e declared.now }
    ensures { result ≡ answer_of (all_rows (records_in plan.now e.body) (permit_rows plan.now e.body)) }
{
    for i in e.declarations..e.records {
        let r = e.from + i;
        let x = record_at(plan, e.bodies, r);
        use_tests(r, x, declared[x.array as usize])?;
    }
    Ok(())
}
