// The types that every crate shares, and the small functions on them. What these answer is in `specs/`; what the types mean, in `model`.

#![tactic(auto)]

pub mod configuration;
pub mod kind;
pub mod layout;
pub mod rejection;
pub mod step;

use rejection::Rejection;
use step::Step;

// A number that was read from a log, and its count of bytes.
#[derive(Clone, Copy, Debug, PartialEq, Eq)]
pub struct Number {
    pub value: u64,
    pub bytes: usize,
}

// A step that was read from a log, and the position after it (at the log's start, its count of bytes).
#[derive(Clone, Copy, Debug, PartialEq, Eq)]
pub struct Reading {
    pub step: Step,
    pub next: usize,
}

// How a replay stopped: no bytes left, its budget used up, or at damaged bytes (3 to 6).
#[derive(Clone, Copy, Debug, PartialEq, Eq)]
pub enum Stop {
    Ended,
    Spent,
    Damaged(Rejection),
}

// What a replay returns: how it stopped, the steps tried, those rejected, and the bytes of whole steps read.
#[derive(Clone, Copy, Debug, PartialEq, Eq)]
pub struct Report {
    pub stop: Stop,
    pub tried: u64,
    pub rejected: u64,
    pub bytes: u64,
}
