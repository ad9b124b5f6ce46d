// A replay with a tally: steps are read and tried in order, as in `replay`, and each rejection counts for the host that it is of, or for none.

#![tactic(auto)]

pub mod tallied;
pub mod tally;
