// The check sums of any bytes, and those of a front and a back from the back's sums.
#![tactic(auto)]

ghost use Rattle.std.specs.Prelude.{◌≡◌, ◌+◌, ◌*◌, ◌^◌, ◌%◌, ◌≤◌};
ghost use Rattle.sums.specs.Sums.{plain_sum, weighted_sum};
ghost use Rattle.check_bytes.specs.Checks.{onto};

use sums::stretches::{STRETCH, Totals, rest, rows_end, stretch};

pub mod packing;

// The two check sums.
#[derive(Clone, Copy, Default)]
pub struct Sums {
    pub plain: u8,
    pub weighted: u8,
}

// The sums of n bytes in front of others: each byte behind them has a number higher by n. One remainder of each sum for all n bytes.
fn in_front(front: Totals, n: usize, back: Sums) -> Sums
    requires { (n ≤ 45056) × (front.plain ≤ 2 ^ 60) × (front.weighted ≤ 2 ^ 60) }
    ensures plain { result.plain ≡ (front.plain + back.plain) % 251 }
    ensures weighted { result.weighted ≡ (front.weighted + n * back.plain + back.weighted) % 251 }
{
    let plain = u64::from(back.plain);
    Sums {
        plain: ((front.plain + plain) % 251) as u8,
        weighted: ((front.weighted + (n as u64) * plain + u64::from(back.weighted)) % 251) as u8,
    }
}

// The sums of a front and a back, from the front's bytes and the back's sums: stretch by stretch, from the last to the first.
pub fn joined_sums(front: &[u8], back: Sums) -> Sums
    ensures { result ≡ onto front.now back }
{
    let (rows, few) = front.split_at(rows_end(front.len()));
    let mut sums = in_front(rest(few), few.len(), back);
    for x in rows.rchunks(STRETCH) {
        sums = in_front(stretch(x), x.len(), sums);
    }
    sums
}

// The sum of the bytes, and that of each byte times its number from 1, modulo 251.
pub fn check_sums(s: &[u8]) -> Sums
    ensures plain { result.plain ≡ plain_sum s.now % 251 }
    ensures weighted { result.weighted ≡ weighted_sum 1 s.now % 251 }
{
    joined_sums(s, Sums::default())
}
