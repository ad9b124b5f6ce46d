// The step that lets a replica's history grow: an entry is added. No entry point: the state is known to be well-formed, and the step's shard and
// index to be in range. The third and the fourth number are tested here (7).

#![tactic(auto)]

pub mod add;
mod entries;
