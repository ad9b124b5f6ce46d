// The program: the text of the log on standard input. The log is read to one byte past the most that it may have. A failure is told in one line on
// standard error; where the log cannot be read whole, nothing is printed.

#![tactic(auto)]

use std::env::FillError;
use std::io;
use std::rt::Env;

mod input;
mod output;
mod passing;

// The most bytes that a log may have, and one more.
const READ_BYTES: usize = transcript::LONGEST_LOG + 1;

fn main(rt: HostRuntime) {
    if has_arguments(&rt) {
        usage(&rt);
        return;
    }
    let mut log = [0u8; READ_BYTES];
    match input::read_all(&mut rt.stdin(), &mut log) {
        Ok(count) => show(&rt, &log[..count]),
        Err(unread) => fail(&rt, "penkwadar: cannot read the log", unread.error),
    }
}

// Whether the program was started with an argument, be it an empty one or one that is no text.
fn has_arguments(rt: &impl Env) -> bool {
    let mut first = [0u8; 1];
    match rt.arg(1, &mut first) {
        Ok(_) | Err(FillError::TooLong) => true,
        Err(FillError::NotPresent) => false,
    }
}

// What any argument gets.
fn usage(rt: &impl Eprint) {
    let _ = rt.eprint(
        "usage: penkwadar < LOG\nprints what the steps of a log do; it takes no arguments\n",
    );
}

// Prints the text of a log.
fn show(rt: &(impl Print + Eprint + Alloc), log: &[u8]) {
    let mut out = [0u8; transcript::MOST];
    if let Ok(len) = transcript::transcript(log, &mut out) {
        print(rt, &out[..len]);
    }
}

// Writes a text to standard output.
fn print(rt: &(impl Print + Eprint + Alloc), text: &[u8]) {
    if let Err(error) = output::write_all(&mut io::writer(rt), text) {
        fail(rt, "penkwadar: cannot write the text", error);
    }
}

// Tells on standard error what failed, and why.
fn fail(rt: &(impl Eprint + Alloc), what: &str, error: io::Error) {
    let _ = match format!(in rt.alloc(); "{error}") {
        Ok(text) => eprintln!(rt; "{what}: {}", reason(&text)),
        Err(_) => eprintln!(rt; "{what}: {error}"),
    };
}

// The text of a system error, without the number that std writes after it.
fn reason(text: &str) -> &str {
    text.split_once(" (os error ")
        .map_or(text, |(reason, _)| reason)
}
