// Calls of `read` and `write` that fail for now.
ghost use Rattle.std.specs.Prelude.{◌↔◌, IsTrue};
ghost use Rattle.std.specs.IoError.{error_kind};
ghost use Rattle.penkwadar.specs.Passing.{IsPassing};

use std::io::ErrorKind;
use std::{io, thread};

// Whether a failed call is to be made again: a signal interrupted it (EINTR), or nothing can be moved yet (EAGAIN). Then other processes may run
// first.
pub fn is_passing(error: &io::Error) -> bool
    ensures { IsTrue result ↔ IsPassing (error_kind error.now) }
{
    match error.kind() {
        ErrorKind::Interrupted => true,
        ErrorKind::WouldBlock => {
            thread::yield_now();
            true
        }
        _ => false,
    }
}
