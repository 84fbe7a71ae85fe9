// What a record of kind 1 to 5 does to the memories, flags and tally. A step is the byte of a record: 0 and 1 mean each cell.
#![tactic(auto)]

ghost use Rattle.std.specs.Prelude.{◌≡◌, true, false, not, ◌&&◌, List, ℕ, ◌≤◌, ◌<◌, leb, length, Ok};
ghost use Rattle.model.specs.Sides.{Layout};
ghost use Rattle.model.specs.Records.{read, write, copy, need, mark, Action, distance};
ghost use Rattle.format.specs.Plans.{action_of};
ghost use Rattle.memories.specs.Inner.Ranges.{Same, of_side};
ghost use Rattle.known.specs.Inner.Knowing.{Sure};
ghost use Rattle.acts.specs.Inner.Acting.{Rooms, Low, Near, Bears, with_verb, cells_between, CellsAt, ArrayAt, Names, NamesEach, AllCurrentOr, BothSet, Acts, side_on, flags_on, Moves};

use known::Known;
use memories::flags::{flag_set, with_flag, without_flag};
use memories::{copy_on, fill_by, fill_on, stale_on};
use model::{Cell, Tally};
use reading::Fields;
use reading::kinds::{MARK, NEED, READ, WRITE};

// What a run keeps besides the memories: the flags of the host, those of the card, the tally, and what it knows of the cells.
#[derive(Clone, Copy)]
pub struct Stored {
    pub host_flags: u64,
    pub card_flags: u64,
    pub tally: Tally,
    pub known: Known,
}

impl Stored {
    // The flags of a side.
    fn flags_on(self, on_card: bool) -> u64
        ensures { result ≡ flags_on on_card self }
    {
        if on_card {
            self.card_flags
        } else {
            self.host_flags
        }
    }

    // The flags of an array set on both sides.
    fn both_set(self, array: u8) -> Stored
        requires { array < 32 }
        ensures { BothSet self array result }
    {
        Stored {
            host_flags: with_flag(self.host_flags, array),
            card_flags: with_flag(self.card_flags, array),
            ..self
        }
    }

    // A mark of an array on a side.
    fn marked(self, on_card: bool, array: u8) -> Stored
        requires { array < 32 }
        ensures { (layout : Layout) (x : Action) (host card latest : List ℕ) → x.name ≡ array → array < length layout.lengths → Acts layout (with_verb mark (side_on on_card) x) self host card latest (Ok result) host card latest }
    {
        if on_card {
            return Stored {
                host_flags: without_flag(self.host_flags, array),
                card_flags: with_flag(self.card_flags, array),
                ..self
            };
        }
        Stored {
            host_flags: with_flag(self.host_flags, array),
            card_flags: without_flag(self.card_flags, array),
            ..self
        }
    }
}

// The cells of a record: those `from` up to `to` of an array at a step; `whole` says whether these are the first and the end of the array.
#[derive(Clone, Copy)]
struct Cells {
    array: u8,
    step: usize,
    from: usize,
    to: usize,
    whole: bool,
}

impl Cells {
    // Whether they are all cells of the array. Asked where it counts alone: known of each record, it would cost a record of one cell a tenth.
    fn all(self) -> bool
        ensures { result ≡ (self.whole && leb self.step 1) }
    {
        self.whole & (self.step <= 1)
    }

    // How many they are.
    fn count(self) -> usize
        requires { (self.step < 256) × (self.from ≤ self.to) × (self.to ≤ 4096) }
        ensures count { result ≡ cells_between (distance self.step) self.from self.to }
        ensures few { result ≤ 4096 }
    {
        if self.step <= 1 {
            return self.to - self.from;
        }
        (self.to - self.from + (self.step - 1)) / self.step
    }

    // Whether they are all current on a side, else the first whose copy is stale. Those that are known to be current are not compared.
    // In place at each of its two calls: a call before each record would cost more than its comparisons of one cell.
    #[inline(always)]
    fn all_current<'a>(
        self,
        on_card: bool,
        known: Known,
        host: &'a [u64],
        card: &'a [u64],
        latest: &[u64],
    ) -> Result<(), Cell>
        requires { Near self known host.now card.now latest.now }
        ensures { AllCurrentOr self (of_side on_card host.now card.now) latest.now result }
    {
        if known.sure(on_card, self.array) {
            return Ok(());
        }
        let c = stale_on(on_card, host, card, latest, self.step, self.from, self.to);
        if c < self.to {
            return Err(Cell(c as u16));
        }
        Ok(())
    }
}

// A read of cells on a side, or the lowest in which its need is unmet.
fn act_read<'a>(
    on_card: bool,
    cells: Cells,
    s: Stored,
    host: &'a [u64],
    card: &'a [u64],
    latest: &[u64],
) -> Result<Stored, Cell>
    requires { Bears cells s host.now card.now latest.now }
    ensures { (layout : Layout) (x : Action) → NamesEach layout (with_verb read (side_on on_card) x) cells → Acts layout (with_verb read (side_on on_card) x) s host.now card.now latest.now result host.now card.now latest.now }
{
    cells.all_current(on_card, s.known, host, card, latest)?;
    Ok(Stored {
        tally: Tally {
            reads: s.tally.reads + 1,
            ..s.tally
        },
        ..s
    })
}

// A write of cells on a side.
fn act_write(
    on_card: bool,
    cells: Cells,
    s: Stored,
    host: &mut [u64],
    card: &mut [u64],
    latest: &mut [u64],
) -> Stored
    requires { Bears cells s host.old card.old latest.old }
    ensures acts { (layout : Layout) (x : Action) → Names layout (with_verb write (side_on on_card) x) cells → Acts layout (with_verb write (side_on on_card) x) s host.old card.old latest.old (Ok result) host.new card.new latest.new }
    ensures same { Same cells.to host.old host.new × Same cells.to card.old card.new × Same cells.to latest.old latest.new }
{
    let k = s.tally.writes + 1;
    fill_on(on_card, host, card, cells.step, cells.from, cells.to, k);
    fill_by(latest, cells.step, cells.from, cells.to, k);
    Stored {
        tally: Tally {
            writes: k,
            ..s.tally
        },
        known: s.known.written(on_card, cells.all(), cells.array),
        ..s
    }
}

// A copy of cells to a side from the other, or the lowest that is stale there.
fn act_copy(
    on_card: bool,
    cells: Cells,
    s: Stored,
    host: &mut [u64],
    card: &mut [u64],
    latest: &[u64],
) -> Result<Stored, Cell>
    requires { Bears cells s host.old card.old latest.now }
    ensures { Moves on_card cells s host.old card.old latest.now result host.new card.new }
{
    cells.all_current(!on_card, s.known, host, card, latest)?;
    copy_on(on_card, host, card, cells.step, cells.from, cells.to);
    Ok(Stored {
        tally: Tally {
            moved: s.tally.moved + cells.count() as u64,
            ..s.tally
        },
        known: s.known.copied(cells.all(), cells.array),
        ..s
    })
}

// A copy of cells to a side from the other, or a need of the array that they are.
// Both go through one call of `act_copy`, which the compiler then puts in place.
fn act_move(
    needs: bool,
    on_card: bool,
    cells: Cells,
    s: Stored,
    host: &mut [u64],
    card: &mut [u64],
    latest: &[u64],
) -> Result<Stored, Cell>
    requires { Bears cells s host.old card.old latest.now }
    ensures copies { needs ≡ false → (layout : Layout) (x : Action) → Names layout (with_verb copy (side_on on_card) x) cells → Acts layout (with_verb copy (side_on on_card) x) s host.old card.old latest.now result host.new card.new latest.now }
    ensures needed { needs ≡ true → (layout : Layout) (x : Action) → Names layout (with_verb need (side_on on_card) x) cells → Acts layout (with_verb need (side_on on_card) x) s host.old card.old latest.now result host.new card.new latest.now }
    ensures same { Same cells.to host.old host.new × Same cells.to card.old card.new }
{
    if needs & flag_set(s.flags_on(on_card), cells.array) {
        return Ok(s);
    }
    let copied = act_copy(on_card, cells, s, host, card, latest)?;
    if needs {
        return Ok(copied.both_set(cells.array));
    }
    Ok(copied)
}

// A record with the fields x, whose cells are `from` up to `to` at its step; `whole` says whether these are the first and the end of its array. It answers what is stored after it, or the lowest
// cell in which its need is unmet. Each kind looks for the side itself: one function for each side, called with the memories exchanged, stood between the compiler and its loops.
pub fn act(
    x: Fields,
    whole: bool,
    from: usize,
    to: usize,
    s: Stored,
    host: &mut [u64],
    card: &mut [u64],
    latest: &mut [u64],
) -> Result<Stored, Cell>
    requires { Low s × Sure s.known x.array from to host.old card.old latest.old × (1 ≤ x.kind) × (x.kind ≤ 5) × (x.array < 32) × Rooms x.step from to host.old card.old latest.old }
    ensures follows { (layout : Layout) → CellsAt layout (action_of x) (distance x.step) from to → ((whole && leb x.step 1) ≡ true → ArrayAt layout x.array (distance x.step) from to) → Acts layout (action_of x) s host.old card.old latest.old result host.new card.new latest.new }
    ensures host { Same to host.old host.new }
    ensures card { Same to card.old card.new }
    ensures latest { Same to latest.old latest.new }
{
    let on_card = x.side != 0;
    let cells = Cells {
        array: x.array,
        step: x.step as usize,
        from,
        to,
        whole,
    };
    match x.kind {
        READ => act_read(on_card, cells, s, host, card, latest),
        WRITE => Ok(act_write(on_card, cells, s, host, card, latest)),
        MARK => Ok(s.marked(on_card, x.array)),
        _ => act_move(x.kind == NEED, on_card, cells, s, host, card, latest),
    }
}
