// The numbers and the answers of document 01, which every layer above names.
#![tactic(auto)]

ghost use Rattle.std.specs.Prelude.{◌≡◌};
ghost use Rattle.model.specs.Verdicts.{values_of};

// A cell's number, counted through all arrays.
#[derive(Clone, Copy, Debug, PartialEq, Eq)]
pub struct Cell(pub u16);

// A record's number, counted through all bodies.
#[derive(Clone, Copy, Debug, PartialEq, Eq)]
pub struct Record(pub u16);

// An array's number.
#[derive(Clone, Copy)]
pub struct Array(pub u16);

// A side: the host's memory or the card's.
#[derive(Clone, Copy, Debug, PartialEq, Eq)]
pub enum Side {
    Host,
    Card,
}

// Why a plan is not accepted: some run of it stops at a record in a cell, or it is refused with a number and a place.
#[derive(Clone, Copy, Debug, PartialEq, Eq)]
pub enum Fault {
    Stopped(Record, Cell),
    Refused(u8, u16),
}

// An answer: accepted, or why not.
pub type Verdict = Result<(), Fault>;

// What is reported of an answer: its number, its place or record, its cell.
#[derive(Clone, Copy)]
pub struct Values {
    pub number: u8,
    pub place: u16,
    pub cell: u16,
}

// The tally of a run: read records, write records, cells moved.
#[derive(Clone, Copy)]
pub struct Tally {
    pub reads: u64,
    pub writes: u64,
    pub moved: u64,
}

// A part of the caller's bytes: where it begins and its length.
#[derive(Clone, Copy)]
pub struct Part {
    pub from: u16,
    pub size: u16,
}

// The figures of a run that is done.
#[derive(Clone, Copy)]
pub struct End {
    pub used: u32,
    pub host_flags: u32,
    pub card_flags: u32,
    pub on_host: u32,
    pub on_card: u32,
}

// The values of an answer, where a stop has the number `stop`: 18 of the check, 21 of the run.
pub fn values_of(v: Verdict, stop: u8) -> Values
    ensures { result ≡ values_of stop v }
{
    match v {
        Ok(()) => Values {
            number: 0,
            place: 0,
            cell: 0,
        },
        Err(Fault::Stopped(r, c)) => Values {
            number: stop,
            place: r.0,
            cell: c.0,
        },
        Err(Fault::Refused(number, place)) => Values {
            number,
            place,
            cell: 0,
        },
    }
}
