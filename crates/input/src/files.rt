// Reading the files that a program's arguments name.
ghost use Rattle.std.specs.Prelude.{MatchResult};
ghost use Rattle.input.specs.Counts.{IsPrefixLen};

use crate::{Failed, read_input};
use console::program::Program;
use std::env::{Env, FillError};
use std::io::{Error, Read};
use std::rt::Files;
use std::str::from_utf8;
use std::{fs, io};

// The system's numbers for an argument that is missing, for one that is too long for a path, and for a path that is no text.
const INVALID: i32 = 22;

const TOO_LONG: i32 = 36;

const NO_TEXT: i32 = 84;

// Why there is no argument.
fn missing(why: FillError) -> Error {
    match why {
        FillError::NotPresent => Error::from_raw_os_error(INVALID),
        FillError::TooLong => Error::from_raw_os_error(TOO_LONG),
    }
}

// Opens the file at a path. One that is no text reaches no file: std's paths are text.
fn open_path<R: Files>(rt: &R, path: &[u8]) -> io::Result<R::File> {
    match from_utf8(path) {
        Ok(text) => fs::open(rt, text),
        Err(_) => Err(Error::from_raw_os_error(NO_TEXT)),
    }
}

// A file that an argument of a program names: which one, and what the file is for.
#[derive(Clone, Copy)]
pub struct NamedFile<'a> {
    pub program: Program<'a>,
    pub argument: usize,
    pub what: &'a [u8],
}

impl<'a> NamedFile<'a> {
    // Says on standard error that it cannot be read and why: the program, what the file is for, its path as far as it is known, and the system's words.
    fn unread(&self, path: &[u8], why: Error) {
        self.program.begin();
        self.program.put(self.what);
        if !path.is_empty() {
            self.program.put(b" ");
        }
        self.program.say(path, why);
    }

    // Opens it; None where it cannot, and has said why.
    pub fn open<R: Env + Files>(&self, rt: &R) -> Option<R::File> {
        let mut path = [0u8; 4096];
        match rt.arg(self.argument, &mut path) {
            Ok(n) => match open_path(rt, &path[..n]) {
                Ok(file) => Some(file),
                Err(why) => {
                    self.unread(&path[..n], why);
                    None
                }
            },
            Err(why) => {
                self.unread(b"", missing(why));
                None
            }
        }
    }

    // Says why it cannot be read on.
    fn stopped(&self, env: &impl Env, why: Error) {
        let mut path = [0u8; 4096];
        match env.arg(self.argument, &mut path) {
            Ok(n) => self.unread(&path[..n], why),
            Err(_) => self.unread(b"", why),
        }
    }

    // Reads on in it, once it is open, as far as the room goes; where it cannot, it has said why.
    pub fn read_on<R: Env, F: Read>(
        &self,
        rt: &R,
        file: &mut F,
        room: &mut [u8],
    ) -> Result<usize, Failed>
        ensures { MatchResult result (λ n. IsPrefixLen n room.new) (λ e. IsPrefixLen e.size room.new) }
    {
        match read_input(file, room) {
            Ok(size) => Ok(size),
            Err(failed) => {
                if let Some(why) = failed.why {
                    self.stopped(rt, why);
                }
                Err(failed)
            }
        }
    }

    // Opens it and reads it as far as the room goes; where it cannot, it has said why.
    pub fn read<R: Env + Files>(&self, rt: &R, room: &mut [u8]) -> Result<usize, Failed>
        ensures { MatchResult result (λ n. IsPrefixLen n room.new) (λ e. IsPrefixLen e.size room.new) }
    {
        let Some(file) = self.open(rt) else {
            return Err(Failed { size: 0, why: None });
        };
        let mut file = file;
        self.read_on(rt, &mut file, room)
    }
}
