// The sums of a stretch of bytes. A band is at most 22 rows: the sums of its columns, each byte times the number of its row, fit 16 bits. A stretch is at
// most 64 bands: all sums of its columns fit 32 bits.
ghost use Rattle.std.specs.Prelude.{◌≡◌, ◌+◌, ◌^◌, ◌-◌, ◌%◌, ◌≤◌, ◌<◌, length};
ghost use Rattle.sums.specs.Inner.Columns.{RowsOf};
ghost use Rattle.sums.specs.Inner.Stretches.{TotalsOf};

use crate::columns::{Band, Bands, ROW, numbered, total};

pub const BAND: usize = 704;

pub const STRETCH: usize = 45056;

// Fewer bytes than these are added one by one: to add up the columns at the end would take longer.
pub const FEW: usize = 128;

// Sums of which no remainder is taken yet.
#[derive(Clone, Copy)]
pub struct Totals {
    pub plain: u64,
    pub weighted: u64,
}

// Where the rows of n bytes end, to be added by columns. What is behind is few bytes.
pub fn rows_end(n: usize) -> usize
    ensures { (result % 32 ≡ 0) × (result ≤ n) × (n - result < 128) }
{
    if n < FEW { 0 } else { n / ROW * ROW }
}

// The sums of a band's columns, from the last row to the first.
pub fn band_of(x: &[u8]) -> Band
    requires { (length x.now % 32 ≡ 0) × (length x.now ≤ 704) }
    ensures { RowsOf x.now result.plain result.weighted }
{
    let mut band = Band {
        plain: [0; ROW],
        weighted: [0; ROW],
    };
    for row in x.rchunks_exact(ROW) {
        band.add_row(row);
    }
    band
}

// The sums of a stretch of whole rows, band by band from the last to the first. Only the last band may be short: each in front of others has 704 bytes.
pub fn stretch(x: &[u8]) -> Totals
    requires { (length x.now % 32 ≡ 0) × (length x.now ≤ 45056) }
    ensures { TotalsOf x.now result }
{
    let mut bands = Bands {
        columns: [0; ROW],
        rows: [0; ROW],
        behind: [0; ROW],
    };
    for part in x.chunks(BAND).rev() {
        bands.add_band(&band_of(part));
    }
    // A byte's number counts 32 for each row before its own in its band, 704 for each band before its own, and the columns up to its own.
    let (plain, weighted) = numbered(&bands.columns);
    Totals {
        plain,
        weighted: 32 * (total(&bands.rows) - plain) + 704 * total(&bands.behind) + weighted,
    }
}

impl Totals {
    // The sums with one byte more in front: each of those taken so far gets a number higher by one.
    fn with_byte(self, byte: u8) -> Totals
        requires { (self.plain ≤ 2 ^ 32) × (self.weighted ≤ 2 ^ 32) }
        ensures plain { result.plain ≡ byte + self.plain }
        ensures weighted { result.weighted ≡ result.plain + self.weighted }
    {
        let plain = self.plain + u64::from(byte);
        Totals {
            plain,
            weighted: self.weighted + plain,
        }
    }
}

// The sums of few bytes, one by one from the last to the first.
pub fn rest(x: &[u8]) -> Totals
    requires { length x.now < 128 }
    ensures { TotalsOf x.now result }
{
    let mut t = Totals {
        plain: 0,
        weighted: 0,
    };
    for b in x.iter().rev() {
        t = t.with_byte(*b);
    }
    t
}
