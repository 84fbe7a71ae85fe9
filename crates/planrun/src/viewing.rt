// The memory view after a run: the stamps of the cells, from whichever side is wholly current.
ghost use Rattle.std.specs.Prelude.{◌≤◌};

use console::answers::Refusal;
use reading::kinds::CELLS;
use report::Memory;
use std::fmt;
use std::fmt::Write;
use view::{memory_view, memory_view_answer};

// The cells to view, from the first up to the end.
#[derive(Clone, Copy)]
pub struct Cells {
    pub first: u64,
    pub end: u64,
}

// A line for each cell, from cell `first` on.
fn cell_lines(page: &mut impl Write, first: u64, cells: &[u64]) -> fmt::Result {
    for (i, stamp) in cells.iter().enumerate() {
        // Below the view's end, so nothing wraps.
        let cell = first.wrapping_add(i as u64);
        writeln!(page, "cell {cell} stamp {stamp}")?;
    }
    Ok(())
}

// These cells of these memories.
fn view_lines<'a>(
    page: &mut impl Write,
    host: &'a [u64],
    card: &'a [u64],
    latest: &[u64],
    cells: Cells,
) -> fmt::Result {
    let Cells { first, end } = cells;
    match memory_view_answer(host, card, latest, first, end) {
        Ok(()) => cell_lines(page, first, memory_view(host, card, latest, first, end)),
        Err(fault) => writeln!(page, "view refused: {}", Refusal(fault)),
    }
}

// How many cells a plan has, at most as many as the memories; none where it does not open.
fn cell_count(plan: &[u8]) -> usize
    ensures { result ≤ 4096 }
{
    match format::open(plan) {
        Ok(o) => usize::from(o.cells).min(CELLS),
        Err(_) => 0,
    }
}

// The same of the program's memories, as far as the plan has cells.
pub fn plan_view_lines<'a>(
    page: &mut impl Write,
    plan: &[u8],
    host: &'a Memory,
    card: &'a Memory,
    latest: &'a Memory,
    cells: Cells,
) -> fmt::Result {
    let n = cell_count(plan);
    view_lines(page, &host[..n], &card[..n], &latest[..n], cells)
}
