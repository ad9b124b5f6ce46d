// The pick of a shard's longest stable history.
ghost use Rattle.std.specs.Prelude.{◌≡◌};
ghost use Rattle.stable_entries.specs.Pick.{longest_place, OfShard};

use types::layout::{CONFIGURATIONS, HEAD_WORDS, REPLICA_WORDS, REPLICAS, SHARD_WORDS, STABLE};

// So many replicas have a place in a shard's words.
const PLACES: usize = CONFIGURATIONS * REPLICAS;

// The place of the replica with the longest stable prefix; of equally long ones, the lowest index, then the lowest replica.
pub fn longest(state: &[u64], shard: u64) -> usize
    requires { OfShard state.now shard }
    ensures { result ≡ longest_place state.now shard 31 }
{
    let first = (shard as usize) * SHARD_WORDS + HEAD_WORDS;
    let mut best = first;
    let mut most = state[first + STABLE];
    for n in 1..PLACES {
        let at = first + n * REPLICA_WORDS;
        let stable = state[at + STABLE];
        if most < stable {
            best = at;
            most = stable;
        }
    }
    best
}
