// What a record needs and does, by masks of a status's four bits: the check's tables in another form. One row of masks serves every cell of the record, so that the
// compiler takes many cells at a time; a table is read for each.
ghost use Rattle.std.specs.Prelude.{◌≡◌, ◌*◌, ◌/◌, ◌%◌, ◌^◌, ◌<◌};
ghost use Rattle.format.specs.Plans.{side_of, verb_of};
ghost use Rattle.tracked.specs.Inner.Tracking.{Acting, stops_by, after_by, Tells};

// A record stops in a status whose bits under `test` are `unmet`. Any other status stays if it has a bit of `held`; else it keeps the bits of `keep` and gets those of `set`.
#[derive(Clone, Copy)]
pub struct Masks {
    pub test: u8,
    pub unmet: u8,
    pub held: u8,
    pub keep: u8,
    pub set: u8,
}

// The masks of each kind from 1 and side, four bits for each, the first lowest. A read tests its own side's copy, a copy the other side's, a need that or its own flag, by which a status
// stays. A write and a mark test no bit, so that what is under it, 0, is never `unmet`, 1.
const TEST: u64 = 0x0096840048;

const UNMET: u64 = 0x1100001100;

const HELD: u64 = 0x0012000000;

const KEEP: u64 = 0xdeffff7bff;

const SET: u64 = 0x127b484800;

// The mask in a row.
fn mask_at(masks: u64, row: u64) -> u8
    requires { row < 10 }
    ensures { result ≡ masks / 2 ^ (4 * row) % 16 }
{
    ((masks >> (4 * row)) % 16) as u8
}

// The masks of a record of this kind, 1 to 5, on this side.
pub fn masks_of(kind: u8, side: u8) -> Masks
    requires { Acting kind side }
    ensures { Tells (verb_of kind) (side_of side) result }
{
    let row = 2 * (u64::from(kind) - 1) + u64::from(side);
    Masks {
        test: mask_at(TEST, row),
        unmet: mask_at(UNMET, row),
        held: mask_at(HELD, row),
        keep: mask_at(KEEP, row),
        set: mask_at(SET, row),
    }
}

// Whether the record stops in status w.
pub fn stops(m: Masks, w: u8) -> bool
    ensures { result ≡ stops_by m w }
{
    w & m.test == m.unmet
}

// The status after it.
pub fn after(m: Masks, w: u8) -> u8
    ensures { result ≡ after_by m w }
{
    if w & m.held == 0 {
        (w & m.keep) | m.set
    } else {
        w
    }
}
