// Numbers 3 to 5, the contents, and numbers 1 to 7 together.
#![tactic(auto)]

ghost use Rattle.std.specs.Prelude.{◌≡◌, ◌+◌, ◌≤◌, ◌<◌, length, IfOk};
ghost use Rattle.model.specs.Rows.{answer_of, all_rows};
ghost use Rattle.model.specs.Verdicts.{where_accepted};
ghost use Rattle.reading.specs.Bytes.{array_count, body_count, first_record, bodies_at};
ghost use Rattle.contents.specs.Contents.{array_rows, entry_rows, front_rows};
ghost use Rattle.contents.specs.Found.{found};
ghost use Rattle.contents.specs.Inner.Findings.{arrays_found, entry_found, bodies_found};

use frame::{header, tail};
use model::Fault;
use reading::kinds::{MOST_CELLS, MOST_RECORDS, NAMES, STARTS};
use reading::{byte, entry_at, length_at, number_at};

// What is found in a file that opens.
#[derive(Clone, Copy)]
pub struct Opened {
    pub kind: u8,
    pub arrays: u8,
    pub bodies: u8,
    pub cells: u16,
    pub records: u16,
    pub offset: u16,
    pub array_starts: [u16; STARTS],
    pub body_starts: [u16; STARTS],
    pub declarations: [u8; NAMES],
}

// What the arrays' entries give: the cells, and the first cell of each array.
#[derive(Clone, Copy)]
pub struct Arrays {
    pub cells: u16,
    pub starts: [u16; STARTS],
}

// What one body's entry gives: its records and its declarations.
#[derive(Clone, Copy)]
struct Entry {
    records: u16,
    declarations: u8,
}

// What the bodies' entries give: the records, and the first record and the declarations of each body.
#[derive(Clone, Copy)]
pub struct Bodies {
    pub records: u16,
    pub starts: [u16; STARTS],
    pub declarations: [u8; NAMES],
}

// Number 4, where number 3 does not hold.
pub fn array_entries(plan: &[u8]) -> Result<Arrays, Fault>
    requires { (array_count plan.now ≤ 32) × (bodies_at plan.now ≤ length plan.now) }
    ensures { result ≡ where_accepted (answer_of (all_rows (array_count plan.now) (array_rows plan.now))) (arrays_found plan.now) }
{
    let arrays = usize::from(byte(plan, 1));
    let mut starts = [0u16; STARTS];
    let mut cells: u16 = 0;
    for a in 0..arrays {
        let n = length_at(plan, a);
        if (n < 1) | (MOST_CELLS - cells < n) {
            return Err(Fault::Refused(4, a as u16));
        }
        cells += n;
        starts[a + 1] = cells;
    }
    Ok(Arrays { cells, starts })
}

// Number 5 of body b, which follows so many records.
fn body_entry(plan: &[u8], b: usize, records: u16) -> Result<Entry, Fault>
    requires { (b < body_count plan.now) × (body_count plan.now ≤ 32) × (bodies_at plan.now ≤ length plan.now) × (records ≡ first_record plan.now b) × (records ≤ 1024) }
    ensures entry { result ≡ where_accepted (answer_of (entry_rows plan.now b)) (entry_found plan.now b) }
    ensures low { IfOk result (λ e. records + e.records ≤ 1024) }
{
    let at = entry_at(plan, b);
    let n = number_at(plan, at);
    let d = byte(plan, at + 2);
    let zero = byte(plan, at + 3);
    // Strict, as in the row of `entry_rows`.
    let fails = (zero != 0)
        | (n < (d as u16))
        | ((b == 0) & (d != 0))
        | (MOST_RECORDS - records < n);
    if fails {
        return Err(Fault::Refused(5, b as u16));
    }
    Ok(Entry {
        records: n,
        declarations: d,
    })
}

// Number 5, where number 3 does not hold.
pub fn body_entries(plan: &[u8]) -> Result<Bodies, Fault>
    requires { (body_count plan.now ≤ 32) × (bodies_at plan.now ≤ length plan.now) }
    ensures bodies { result ≡ where_accepted (answer_of (all_rows (body_count plan.now) (entry_rows plan.now))) (bodies_found plan.now) }
    ensures low { IfOk result (λ b. b.records ≤ 1024) }
{
    let bodies = usize::from(byte(plan, 2));
    let mut starts = [0u16; STARTS];
    let mut declarations = [0u8; NAMES];
    let mut records: u16 = 0;
    for b in 0..bodies {
        let e = body_entry(plan, b, records)?;
        declarations[b] = e.declarations;
        records += e.records;
        starts[b + 1] = records;
    }
    Ok(Bodies {
        records,
        starts,
        declarations,
    })
}

// Numbers 1 to 7, and what is found in a file in which none of them holds.
pub fn outline(plan: &[u8]) -> Result<Opened, Fault>
    ensures { result ≡ where_accepted (answer_of (front_rows plan.now)) (found plan.now) }
{
    header(plan)?;
    let bodies = byte(plan, 2);
    let offset = entry_at(plan, usize::from(bodies));
    if plan.len() < offset {
        return Err(Fault::Refused(3, 0));
    }
    let Arrays {
        cells,
        starts: array_starts,
    } = array_entries(plan)?;
    let Bodies {
        records,
        starts: body_starts,
        declarations,
    } = body_entries(plan)?;
    tail(plan, offset, usize::from(records))?;
    Ok(Opened {
        kind: byte(plan, 0),
        arrays: byte(plan, 1),
        bodies,
        cells,
        records,
        offset: offset as u16,
        array_starts,
        body_starts,
        declarations,
    })
}
