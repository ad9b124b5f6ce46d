// The steps by which a pending replica begins, with another one's words: those of an immutable replica of the configuration before (inherit), or of a
// peer (catch up). No entry point: the state is known to be well-formed, and the step's shard and index to be in range. Each kind tests its third and
// fourth number itself (7).

#![tactic(auto)]

pub mod catch_up;
pub mod inherit;
