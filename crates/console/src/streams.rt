// Writing to the two streams.
use std::io::{Error, ErrorKind, Print, Result};

// Writes all of the bytes, or answers why not: it stops at the first write that fails or takes nothing.
pub fn write<W: Print>(to: &W, bytes: &[u8]) -> Result<()> {
    let mut rest = bytes;
    while !rest.is_empty() {
        let n = to.write_some(rest)?;
        if n == 0 {
            return Err(Error::from(ErrorKind::WriteZero));
        }
        rest = &rest[n..];
    }
    Ok(())
}
