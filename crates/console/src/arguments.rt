// The arguments that are numbers.
use std::env::{Env, FillError};

// A number with one more digit; None behind another character, and behind a number above a million.
fn with_digit(n: u64, b: u8) -> Option<u64> {
    if !b.is_ascii_digit() {
        return None;
    }
    if 1_000_000 < n {
        return None;
    }
    Some(n * 10 + u64::from(b - b'0'))
}

// The number that a text gives in decimal, 10,000,009 at most; None of an empty text, of one with another character, and of a larger number.
fn number_of(s: &[u8]) -> Option<u64> {
    if s.is_empty() {
        return None;
    }
    s.iter().try_fold(0, |n, b| with_digit(n, *b))
}

// The number that argument i is; None where there is no such argument, and where it has over 4,096 bytes.
pub fn number_argument(env: &impl Env, i: usize) -> Option<u64> {
    let mut text = [0u8; 4096];
    match env.arg(i, &mut text) {
        Ok(n) => number_of(&text[..n]),
        Err(_) => None,
    }
}

// Whether there is an argument i, of any length.
fn is_argument(env: &impl Env, i: usize) -> bool {
    let mut text = [0u8; 1];
    !matches!(env.arg(i, &mut text), Err(FillError::NotPresent))
}

// How many arguments there are, the program's name among them.
pub fn argument_count(env: &impl Env) -> usize {
    (0..usize::MAX).take_while(|i| is_argument(env, *i)).count()
}
