// Sums by columns: a row is 32 bytes side by side, and a column the bytes at one place of each row. All columns of a row are added at a time.
// The loops that write go by an index: after one over `iter_mut().zip(..)` a proof knows no more of an array than its length.
ghost use Rattle.std.specs.Prelude.{◌≡◌, ℕ, ◌+◌, ◌^◌, ◌≤◌, ◌<◌, length, get_or};
ghost use Rattle.sums.specs.Sums.{plain_sum, weighted_sum};
ghost use Rattle.sums.specs.Inner.Columns.{Most, added, RoomForRow, RoomForBand};

pub const ROW: usize = 32;

// Adds the bytes of a row, each to its column.
pub fn add_row(columns: &mut [u16; ROW], row: &[u8])
    requires { (length row.now ≡ 32) × Most 65280 columns.old }
    ensures { columns.new ≡ added columns.old row.now }
{
    for i in 0..ROW {
        columns[i] += u16::from(row[i]);
    }
}

// Adds to each column that of a second set.
pub fn add_columns(columns: &mut [u16; ROW], more: &[u16; ROW])
    requires { (i : ℕ) → get_or columns.old i 0 + get_or more.now i 0 < 65536 }
    ensures { columns.new ≡ added columns.old more.now }
{
    for i in 0..ROW {
        columns[i] += more[i];
    }
}

// The sums of the columns of a band's rows: of the bytes, and of each byte times the number of its row from 1.
#[derive(Clone, Copy)]
pub struct Band {
    pub plain: [u16; ROW],
    pub weighted: [u16; ROW],
}

impl Band {
    // Adds a row in front of those taken: each of them gets a number higher by one. The numbers of the bytes come from adding up the plain sums again:
    // a loop for each of the two, as both in one take a third longer.
    pub fn add_row(&mut self, row: &[u8])
        requires { RoomForRow self.old row.now }
        ensures plain { self.new.plain ≡ added self.old.plain row.now }
        ensures weighted { self.new.weighted ≡ added self.old.weighted (added self.old.plain row.now) }
    {
        add_row(&mut self.plain, row);
        add_columns(&mut self.weighted, &self.plain);
    }
}

// The sums of the columns of a stretch's bands: of the bytes; of each byte times the number of its row in its band, from 1; and for each band those
// of all columns behind it.
#[derive(Clone, Copy)]
pub struct Bands {
    pub columns: [u32; ROW],
    pub rows: [u32; ROW],
    pub behind: [u32; ROW],
}

impl Bands {
    // Adds a band in front of those taken. One loop for all three is faster than three.
    pub fn add_band(&mut self, band: &Band)
        requires { RoomForBand self.old band.now }
        ensures columns { self.new.columns ≡ added self.old.columns band.now.plain }
        ensures rows { self.new.rows ≡ added self.old.rows band.now.weighted }
        ensures behind { self.new.behind ≡ added self.old.behind self.old.columns }
    {
        for i in 0..ROW {
            self.behind[i] += self.columns[i];
            self.columns[i] += u32::from(band.plain[i]);
            self.rows[i] += u32::from(band.weighted[i]);
        }
    }
}

// The sum of all columns.
pub fn total(columns: &[u32; ROW]) -> u64
    ensures sum { result ≡ plain_sum columns.now }
    ensures low { result ≤ 2 ^ 37 }
{
    columns.iter().map(|n| u64::from(*n)).sum()
}

// The sum of all columns, and that of each column times its number from 1. From the last to the first: a column in front adds one to the number of
// each after it.
pub fn numbered(columns: &[u32; ROW]) -> (u64, u64)
    ensures plain { result.0 ≡ plain_sum columns.now }
    ensures sum { result.1 ≡ weighted_sum 1 columns.now }
    ensures low { (result.0 ≤ 2 ^ 37) × (result.1 ≤ 2 ^ 42) }
{
    let mut plain = 0;
    let mut weighted = 0;
    for n in columns.iter().rev() {
        plain += u64::from(*n);
        weighted += plain;
    }
    (plain, weighted)
}
