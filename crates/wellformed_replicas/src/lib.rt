// The words of a replica.

#![tactic(auto)]

pub mod replica;
