// Reading an input to its end. A short read is not the end, nor is one that was interrupted or came too early.
ghost use Rattle.std.specs.Prelude.{◌≡◌, ◌<◌, ◌≤◌, length, take, IfOk, IfErr, OnErr};
ghost use Rattle.std.specs.Io.KnownBytes.{Consumes, IsAtEnd, Keeps};
ghost use Rattle.std.specs.IoError.{error_kind};
ghost use Rattle.penkwadar.specs.Passing.{IsPassing};
ghost use Rattle.penkwadar.specs.Counts.{IsPrefixLen, ConsumesSome, read_count};

use crate::passing::is_passing;
use std::io;
use std::io::{ErrorKind, Read};

// An input that was not read whole: how many first bytes were read, and the error that tells why not all.
#[derive(Clone, Copy)]
pub struct Unread {
    pub count: usize,
    pub error: io::Error,
}

// Reads until the buffer is full or the input ends, and returns how many bytes were read. The error is that of a read that failed for good, or
// another where no turn was left. The library's `read_exact` takes a short input for an error.
pub fn read_all<R: Read>(from: &mut R, buf: &mut [u8]) -> Result<usize, Unread>
    ensures within { IsPrefixLen (read_count result) buf.new }
    ensures bytes { Consumes (R.remaining from.old) (R.remaining from.new) (take (read_count result) buf.new) }
    ensures end { IfOk result (λ count. count < length buf.new → IsAtEnd (R.remaining from.new)) }
    ensures err { OnErr result (ConsumesSome (R.remaining from.old) (R.remaining from.new) buf.new) }
    ensures lasting { IfErr result (λ unread. ¬ (IsPassing (error_kind unread.error))) }
{
    let mut count = 0;
    while count < buf.len() {
        match read_some(from, &mut buf[count..]) {
            Ok(0) => return Ok(count),
            Ok(more) => count += more,
            Err(error) => return Err(Unread { count, error }),
        }
    }
    Ok(count)
}

// One read, made again while it fails for now. A proved loop has to end, so it has a number of turns that no run uses up.
fn read_some<R: Read>(from: &mut R, buf: &mut [u8]) -> io::Result<usize>
    ensures within { IfOk result (λ count. IsPrefixLen count buf.new) }
    ensures bytes { IfOk result (λ count. Consumes (R.remaining from.old) (R.remaining from.new) (take count buf.new)) }
    ensures end { IfOk result (λ count. count ≡ 0 → 0 < length buf.new → IsAtEnd (R.remaining from.new)) }
    ensures err { OnErr result (Keeps (R.remaining from.old) (R.remaining from.new)) }
    ensures lasting { IfErr result (λ error. ¬ (IsPassing (error_kind error))) }
{
    for _ in 0..u64::MAX {
        match from.read(buf) {
            Err(error) if is_passing(&error) => {}
            done => return done,
        }
    }
    Err(io::Error::from(ErrorKind::TimedOut))
}
