// Reading and writing in full, where a call that failed is told apart from the end of the input. A call that a signal interrupted, or that would have had to wait,
// is made again: std's `write_all` and `read_exact` take the second for a failure. No contract can say what is read or written.
#![tactic(auto)]

ghost use Rattle.io.specs.Counts.{IsPrefixLen};

use std::io::{Error, ErrorKind, Read, Write};
use std::thread;

// How many bytes were read, and why a read failed, if one did. Fewer than asked and none failed: the input has ended. No Result: what was read before a failure
// counts, too.
#[derive(Clone, Copy)]
pub struct Got {
    pub count: usize,
    pub failed: Option<Error>,
}

// A proved loop ends, and nothing says that a stream does: calls are counted, up to a number that no run uses up.
const CALLS: u64 = u64::MAX;

// Whether a call that failed is to be made again. One that would have had to wait lets other threads run first.
fn again(error: &Error) -> bool {
    let kind = error.kind();
    if kind == ErrorKind::WouldBlock {
        thread::yield_now();
        return true;
    }
    kind == ErrorKind::Interrupted
}

// Reads until the bytes are full, the input ends or a read fails.
pub fn read_full<R: Read>(from: &mut R, bytes: &mut [u8]) -> Got
    ensures { IsPrefixLen result.count bytes.new }
{
    let mut count = 0;
    for _ in 0..CALLS {
        match from.read(&mut bytes[count..]) {
            Ok(more) => {
                count += more;
                if more == 0 || count == bytes.len() {
                    break;
                }
            }
            Err(error) => {
                if !again(&error) {
                    return Got {
                        count,
                        failed: Some(error),
                    };
                }
            }
        }
    }
    Got {
        count,
        failed: None,
    }
}

// Writes all bytes, or tells why not; a write that fails or takes nothing ends it.
pub fn write_all<W: Write>(to: &mut W, bytes: &[u8]) -> Result<(), Error> {
    let mut count = 0;
    for _ in 0..CALLS {
        if count == bytes.len() {
            return Ok(());
        }
        match to.write(&bytes[count..]) {
            Ok(0) => break,
            Ok(more) => count += more,
            Err(error) => {
                if !again(&error) {
                    return Err(error);
                }
            }
        }
    }
    Err(Error::from(ErrorKind::WriteZero))
}
