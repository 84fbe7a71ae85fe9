// A page of output: what is to be printed waits in it, and goes to its stream where the page is full or done.
ghost use Rattle.std.specs.Prelude.{◌≡◌, ◌≤◌, ⊤, IsErr, IsNone, IsSome};

use crate::program::Program;
use crate::streams::write;
use std::alloc::AllocError;
use std::io::{Error, Print, Result};
use std::{fmt, result};

const SIZE: usize = 4096;

// The stream, the bytes, how many of them wait, and why a write failed, behind which nothing more is taken.
pub struct Page<W> {
    to: W,
    bytes: [u8; SIZE],
    count: usize,
    failure: Option<Error>,
    ghost few: { count ≤ 4096 },
}

impl<W: Copy> Clone for Page<W> {
    ghost is_clone = { λ x y. y ≡ x };

    ghost is_infallible = { λ _. ⊤ };

    fn clone(&self) -> result::Result<Page<W>, AllocError> {
        Ok(*self)
    }
}

impl<W: Copy> Copy for Page<W> {}

impl<W: Print + Copy> Page<W> {
    // A page for a stream, in which nothing waits.
    pub fn new(to: W) -> Page<W>
        ensures empty { result.count ≡ 0 }
        ensures goes_on { IsNone result.failure }
    {
        Page {
            to,
            bytes: [0; SIZE],
            count: 0,
            failure: None,
        }
    }

    // Forgets what waits, and that a write failed.
    pub fn clear(&mut self)
        ensures empty { self.new.count ≡ 0 }
        ensures goes_on { IsNone self.new.failure }
    {
        self.count = 0;
        self.failure = None;
    }

    // Writes what waits, or answers why not all of it was taken, or what was before it.
    pub fn print(&self) -> Result<()>
        ensures { IsSome self.now.failure → IsErr result }
    {
        if let Some(why) = self.failure {
            return Err(why);
        }
        write(&self.to, &self.bytes[..self.count])
    }

    // Writes what waits. Where a write fails, or one did before, it says so on standard error.
    pub fn finish(&self, program: Program<'_>) {
        if let Err(why) = self.print() {
            program.fail(b"standard output", why);
        }
    }

    // One byte.
    fn byte(&mut self, b: u8) -> fmt::Result
        ensures { IsErr result → IsSome self.new.failure }
    {
        if self.count < SIZE {
            self.bytes[self.count] = b;
            self.count += 1;
            return Ok(());
        }
        if let Err(why) = self.print() {
            self.failure = Some(why);
            return Err(fmt::Error);
        }
        self.bytes[0] = b;
        self.count = 1;
        Ok(())
    }

    // A text, of any bytes. Where not all of it is taken, the page keeps why.
    pub fn text(&mut self, s: &[u8]) -> fmt::Result
        ensures { IsErr result → IsSome self.new.failure }
    {
        for b in s {
            self.byte(*b)?;
        }
        Ok(())
    }
}

impl<W: Print + Copy> fmt::Write for Page<W> {
    fn write_str(&mut self, s: &str) -> fmt::Result {
        self.text(s.as_bytes())
    }
}
