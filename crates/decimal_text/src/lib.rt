// What texts are made of: bytes, and numbers in decimal, appended to a lent output.

#![tactic(auto, using(crate::proofs::Appending::appending))]

pub mod decimal;
pub mod text;
