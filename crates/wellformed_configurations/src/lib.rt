// The configurations of a shard.

#![tactic(auto)]

pub mod configuration;
