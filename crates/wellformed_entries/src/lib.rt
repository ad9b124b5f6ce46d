// What a history and a configuration are made of: entries, member sets, and words that are all 0.

#![tactic(auto)]

pub mod entry;
pub mod members;
pub mod zero;
