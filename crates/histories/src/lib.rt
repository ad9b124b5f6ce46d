// Lists read off a state: a shard's stable history, a replica's stable prefix, which is what a host shows, and the hosts from which a replica's
// history came.

#![tactic(auto)]

pub mod history;
mod named;
pub mod prefix;
pub mod trace;
