// Cases of our own, with known answers: a table in `specs/`, proved in `proofs/`. This crate has no code.

#![tactic(auto)]
