// The stable entries of a replica, copied to an output, and the pick of a shard's replica that has most of them.

#![tactic(auto)]

pub mod copy;
pub mod history;
pub mod pick;
