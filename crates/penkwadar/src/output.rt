// Writing to an output. A short write is not the end, nor is one that was interrupted or came too early.
ghost use Rattle.std.specs.Prelude.{◌≤◌, length, take, IfOk, IfErr, OnOk, OnErr};
ghost use Rattle.std.specs.Io.KnownBytes.{Appends, Keeps};
ghost use Rattle.std.specs.IoError.{error_kind};
ghost use Rattle.penkwadar.specs.Passing.{IsPassing};
ghost use Rattle.penkwadar.specs.Counts.{AppendsSome};

use crate::passing::is_passing;
use std::io;
use std::io::{ErrorKind, Write};

// Writes all bytes. An error tells why not: that of a write that failed for good, or another where a write took nothing or no turn was left. Then
// some first bytes may have been written. The library's `write_all` gives up on an output that takes nothing for now, and does not say what it took.
pub fn write_all<W: Write>(to: &mut W, bytes: &[u8]) -> io::Result<()>
    ensures ok { OnOk result (Appends (W.contents to.old) (W.contents to.new) bytes.now) }
    ensures err { OnErr result (AppendsSome (W.contents to.old) (W.contents to.new) bytes.now) }
    ensures lasting { IfErr result (λ error. ¬ (IsPassing (error_kind error))) }
{
    let mut rest = bytes;
    while !rest.is_empty() {
        match write_some(to, rest)? {
            0 => return Err(io::Error::from(ErrorKind::WriteZero)),
            count => rest = &rest[count..],
        }
    }
    Ok(())
}

// One write, made again while it fails for now, as `input::read_some` does a read. One function over a closure for the call could not say which bytes
// were moved: of what a closure has changed, a proof knows nothing after the calls.
fn write_some<W: Write>(to: &mut W, bytes: &[u8]) -> io::Result<usize>
    ensures within { IfOk result (λ count. count ≤ length bytes.now) }
    ensures bytes { IfOk result (λ count. Appends (W.contents to.old) (W.contents to.new) (take count bytes.now)) }
    ensures err { OnErr result (Keeps (W.contents to.old) (W.contents to.new)) }
    ensures lasting { IfErr result (λ error. ¬ (IsPassing (error_kind error))) }
{
    for _ in 0..u64::MAX {
        match to.write(bytes) {
            Err(error) if is_passing(&error) => {}
            done => return done,
        }
    }
    Err(io::Error::from(ErrorKind::TimedOut))
}
