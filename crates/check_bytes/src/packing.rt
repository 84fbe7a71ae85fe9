// The two sums packed into 64 bits, for callers in C and Rust.
ghost use Rattle.std.specs.Prelude.{◌≡◌};
ghost use Rattle.check_bytes.specs.Packed.{packed, packed_back_sums, unpacked, packed_joined_sums};

use crate::{Sums, check_sums, joined_sums};

// Both sums in one number.
fn pack(sums: Sums) -> u64
    ensures { result ≡ packed sums }
{
    u64::from(sums.plain) + 65536 * u64::from(sums.weighted)
}

// The sums that a number of any value stands for.
fn unpack(number: u64) -> Sums
    ensures { result ≡ unpacked number }
{
    Sums {
        plain: (number % 65536 % 251) as u8,
        weighted: (number / 65536 % 65536 % 251) as u8,
    }
}

// The check sums of any bytes.
pub fn packed_back_sums(back: &[u8]) -> u64
    ensures { result ≡ packed_back_sums back.now }
{
    pack(check_sums(back))
}

// The check sums of a front and a back.
pub fn packed_joined_sums(front: &[u8], back: u64) -> u64
    ensures { result ≡ packed_joined_sums front.now back }
{
    pack(joined_sums(front, unpack(back)))
}
