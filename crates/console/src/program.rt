// A program as it speaks on standard error.
use crate::streams::write;
use std::fmt::InlineText;
use std::io::{Error, Stderr};

// More than the words of any failure take.
const ROOM: usize = 128;

// Its name, and where it says what failed.
#[derive(Clone, Copy)]
pub struct Program<'a> {
    pub name: &'a [u8],
    pub err: Stderr,
}

// What std says of a failure, without ` (os error`, the number and `)` at its end.
fn words_of(s: &[u8]) -> &[u8] {
    match s.iter().position(|b| *b == b'(') {
        Some(i) => &s[..i.saturating_sub(1)],
        None => s,
    }
}

impl<'a> Program<'a> {
    // Writes to standard error. Where that fails nobody is left to be told.
    pub fn put(&self, bytes: &[u8]) {
        let _ = write(&self.err, bytes);
    }

    // Begins what it says with its name.
    pub fn begin(&self) {
        self.put(self.name);
        self.put(b": ");
    }

    // Says what failed, and the system's words for the failure.
    pub fn say(&self, what: &[u8], why: Error) {
        let text = InlineText::<ROOM>::of(why);
        self.put(what);
        self.put(b": ");
        self.put(words_of(text.as_str().as_bytes()));
        self.put(b"\n");
    }

    // The same behind its name.
    pub fn fail(&self, what: &[u8], why: Error) {
        self.begin();
        self.say(what, why);
    }
}
