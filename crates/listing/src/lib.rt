// The listing of a plan that opens: a line on the whole, a line for each array, and each body with its records.
#![tactic(auto)]

ghost use Rattle.std.specs.Prelude.{◌≡◌, ◌≤◌, ◌<◌, Ok};
ghost use Rattle.reading.specs.Bytes.{body_count};
ghost use Rattle.format.specs.Opening.{opened};

use block::block;
use contents::Opened;
use format::body_view;
use lines::parts::{array_line, body_line, heading};
use reading::scratch_at;
use std::fmt;
use std::fmt::Write;

mod block;

// A line for each array.
fn arrays(page: &mut impl Write, plan: &[u8], o: Opened) -> fmt::Result
    requires { Ok o ≡ opened plan.now }
{
    let starts = o.array_starts;
    for a in 0..usize::from(o.arrays) {
        array_line(page, a, starts[a], starts[a + 1], scratch_at(plan, a))?;
    }
    Ok(())
}

// Body b: its line, and the lines of its records.
pub fn body_lines(page: &mut impl Write, plan: &[u8], o: Opened, b: usize) -> fmt::Result
    requires { (Ok o ≡ opened plan.now) × (b < body_count plan.now) }
{
    let first = o.body_starts[b];
    let end = o.body_starts[b + 1];
    body_line(page, b, first, end)?;
    let body = body_view(plan, b as u64);
    block(
        page,
        body,
        usize::from(first),
        1,
        0,
        usize::from(end - first),
    )
}

// Each body.
fn bodies(page: &mut impl Write, plan: &[u8], o: Opened) -> fmt::Result
    requires { Ok o ≡ opened plan.now }
{
    for b in 0..usize::from(o.bodies) {
        body_lines(page, plan, o, b)?;
    }
    Ok(())
}

// The listing of a plan in which opening found o.
pub fn listed(page: &mut impl Write, plan: &[u8], o: Opened) -> fmt::Result
    requires { Ok o ≡ opened plan.now }
{
    heading(page, o)?;
    arrays(page, plan, o)?;
    bodies(page, plan, o)
}
