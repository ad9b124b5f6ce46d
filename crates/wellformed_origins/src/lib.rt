// Where the replicas of a configuration began.

#![tactic(auto)]

pub mod origin;
