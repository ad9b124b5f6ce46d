// The words of a replica, copied to another one's place.

#![tactic(auto)]

ghost use Rattle.std.specs.Prelude.{◌≡◌};
ghost use Rattle.model.specs.Layout.{replica_at, put_replica};
ghost use Rattle.lookup.specs.Ready.{Placed, HoldsReplica};
ghost use Rattle.copying.specs.Copies.{copied};

use types::layout::{ORIGIN, REPLICA_WORDS, STABLE};

// The replica at p gets the words of the one at q, but for the mode, the stable length and the origin.
pub fn copy_replica(state: &mut [u64], p: usize, q: usize, mode: u64, stable: u64, origin: u64)
    requires { Placed state.old p × HoldsReplica state.old q }
    ensures { state.new ≡ put_replica state.old p (copied mode stable origin (replica_at state.old q)) }
{
    let last = q + REPLICA_WORDS;
    let mut copy = [0u64; REPLICA_WORDS];
    copy.copy_from_slice(&state[q..last]);
    copy[0] = mode;
    copy[STABLE] = stable;
    copy[ORIGIN] = origin;
    let end = p + REPLICA_WORDS;
    state[p..end].copy_from_slice(&copy);
}
