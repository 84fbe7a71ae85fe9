// The flags of a side: bit a is array a. During a run a number of 64 bits holds them: two of 32 bits that go side by side are packed into one, and taken apart at each record. At its end
// they are a mask of 32 bits.
ghost use Rattle.std.specs.Prelude.{◌≡◌, Bool, true, false, cond, ℕ, ◌<◌, eqb};
ghost use Rattle.model.specs.Lists.{how_many};
ghost use Rattle.memories.specs.Flags.{mask};

// Whether an array's flag is set.
pub fn flag_set(flags: u64, array: u8) -> bool
    requires { array < 32 }
    ensures { (n : ℕ) (flag : ℕ → Bool) → array < n → flags ≡ mask n flag → result ≡ flag array }
{
    flags & (1u64 << array) != 0
}

// The flags with an array's flag set.
pub fn with_flag(flags: u64, array: u8) -> u64
    requires { array < 32 }
    ensures { (n : ℕ) (flag : ℕ → Bool) → array < n → flags ≡ mask n flag → result ≡ mask n (λ a. cond (eqb a array) true (flag a)) }
{
    flags | (1u64 << array)
}

// The flags with an array's flag cleared.
pub fn without_flag(flags: u64, array: u8) -> u64
    requires { array < 32 }
    ensures { (n : ℕ) (flag : ℕ → Bool) → array < n → flags ≡ mask n flag → result ≡ mask n (λ a. cond (eqb a array) false (flag a)) }
{
    flags ^ (flags & (1u64 << array))
}

// How many flags of a mask are set.
pub fn flags_set(flags: u32) -> u32
    ensures { (n : ℕ) (flag : ℕ → Bool) → flags ≡ mask n flag → result ≡ how_many flag n }
{
    u32::count_ones(flags)
}
