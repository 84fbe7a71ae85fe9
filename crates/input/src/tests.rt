// A reading that fails behind what it read.
use crate::read_input;
use std::io::{Error, Read, Result};

// The system's number for a failed read.
const BROKEN: i32 = 5;

// Gives so many bytes, one at each read, and then fails.
#[derive(Drop)]
struct Failing {
    left: usize,
}

impl Read for Failing {
    fn read(&mut self, buf: &mut [u8]) -> Result<usize> {
        if self.left == 0 || buf.is_empty() {
            return Err(Error::from_raw_os_error(BROKEN));
        }
        self.left -= 1;
        buf[0] = b'7';
        Ok(1)
    }
}

#[test]
fn a_failure_says_how_much_stands_in_the_room_and_why(rt: HostRuntime) {
    for given in 0..4 {
        let mut room = [0u8; 4];
        match read_input(&mut Failing { left: given }, &mut room) {
            Ok(_) => assert!(rt; false, "{given} bytes"),
            Err(failed) => {
                assert_eq!(rt; failed.size, given);
                let why = failed.why.unwrap();
                assert_eq!(rt; why.raw_os_error(), Some(BROKEN));
            }
        }
        assert_eq!(rt; room.iter().position(|b| *b != b'7'), Some(given));
    }
}

#[test]
fn a_full_room_asks_for_no_more(rt: HostRuntime) {
    let mut room = [0u8; 4];
    let read = read_input(&mut Failing { left: 4 }, &mut room);
    assert!(rt; read.is_ok());
    assert_eq!(rt; room, [b'7'; 4]);
}
