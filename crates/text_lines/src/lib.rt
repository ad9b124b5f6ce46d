// What the program's lines are made of: words and numbers; and the line of a shard.

#![tactic(auto, using(decimal_text::proofs::Appending::appending))]

pub mod number;
pub mod shards;
