// What the functions for C write of an answer: words at the start of an output.

#![tactic(auto)]

pub mod tally_words;
pub mod words;
