// The kinds of files and of records, and the limits of a plan file, as documents 01 and 02 number them.
ghost use Rattle.std.specs.Prelude.{◌≡◌};
ghost use Rattle.reading.specs.Kinds.{number_of, file_number_of, NamesKind};

// The kinds of files: "Byte 0: kind, 1 declared, 2 plain."
#[derive(Clone, Copy, Debug, PartialEq, Eq)]
pub enum FileKind {
    Declared = 1,
    Plain = 2,
}

impl From<FileKind> for u8 {
    ghost from_gives = { λ kind n. n ≡ file_number_of kind };

    fn from(kind: FileKind) -> u8 {
        kind as u8
    }
}

// The kinds of records.
#[derive(Clone, Copy, Debug, PartialEq, Eq)]
pub enum Kind {
    // "1 read, 2 write, 3 copy", "4 need, 5 mark", "6 branch", "7 loop", "8 call".
    Read = 1,
    Write = 2,
    Copy = 3,
    Need = 4,
    Mark = 5,
    Branch = 6,
    Loop = 7,
    Call = 8,
    // "kind 9, wherever kind 7 may stand": a fixed loop.
    Fixed = 9,
    // "16 R, 17 W, 18 RW": declarations.
    R = 16,
    W = 17,
    RW = 18,
}

impl From<Kind> for u8 {
    ghost from_gives = { λ kind n. n ≡ number_of kind };

    fn from(kind: Kind) -> u8 {
        kind as u8
    }
}

// A byte that stands for no kind of record: "kinds 0, 10 to 15 and 19 to 255 are unknown".
#[derive(Clone, Copy, Debug, PartialEq, Eq)]
pub struct UnknownKind(pub u8);

impl TryFrom<u8> for Kind {
    type Error = UnknownKind;

    ghost try_from_gives = { NamesKind };

    fn try_from(byte: u8) -> Result<Self, UnknownKind> {
        match byte {
            1 => Ok(Kind::Read),
            2 => Ok(Kind::Write),
            3 => Ok(Kind::Copy),
            4 => Ok(Kind::Need),
            5 => Ok(Kind::Mark),
            6 => Ok(Kind::Branch),
            7 => Ok(Kind::Loop),
            8 => Ok(Kind::Call),
            9 => Ok(Kind::Fixed),
            16 => Ok(Kind::R),
            17 => Ok(Kind::W),
            18 => Ok(Kind::RW),
            0 | 10..=15 | 19..=255 => Err(UnknownKind(byte)),
        }
    }
}

// "Byte 0: kind, 1 declared, 2 plain."
pub const DECLARED: u8 = 1;

pub const PLAIN: u8 = 2;

// "1 read, 2 write, 3 copy", "4 need, 5 mark", "6 branch", "7 loop", "8 call".
pub const READ: u8 = 1;

pub const WRITE: u8 = 2;

pub const COPY: u8 = 3;

pub const NEED: u8 = 4;

pub const MARK: u8 = 5;

pub const BRANCH: u8 = 6;

pub const LOOP: u8 = 7;

pub const CALL: u8 = 8;

// "kind 9, wherever kind 7 may stand": a fixed loop.
pub const FIXED: u8 = 9;

// "16 R, 17 W, 18 RW".
pub const R: u8 = 16;

pub const W: u8 = 17;

pub const RW: u8 = 18;

// "arrays, 1 to 32", "bodies, 1 to 32": the limits, a table with an entry for each array or body, and one that has the total after the last.
pub const MOST_ARRAYS: u8 = 32;

pub const MOST_BODIES: u8 = 32;

pub const NAMES: usize = 32;

pub const STARTS: usize = 33;

// "per array its length .., 1 to 4,096, together at most 4,096": the limit of both, and a set of cells.
pub const MOST_CELLS: u16 = 4096;

pub const CELLS: usize = 4096;

// "The highest bit of an array's length now marks scratch".
pub const SCRATCH: u16 = 32768;

// "its records (.. together at most 1,024)": the limit, the same of an expansion, and a table with an entry for each record and one after the last.
pub const MOST_RECORDS: u16 = 1024;

pub const MOST_EXPANDED: u32 = 1024;

pub const PLACES: usize = 1025;

// "over 65,536 choices".
pub const CHOICES: usize = 65536;

// "In a plain plan each stands inside at most 15 others, in a body of a declared plan inside at most 7."
pub const PLAIN_DEPTH: usize = 15;

pub const DECLARED_DEPTH: usize = 7;

// "Q turns from 1 to 4,096", "the product of the counts passes 4,096": the limit of each.
pub const MOST_TURNS: u16 = 4096;

pub const MOST_PRODUCT: usize = 4096;
