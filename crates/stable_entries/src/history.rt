// The stable history of a shard, and the stable prefix of a replica, as parts of the state.
ghost use Rattle.std.specs.Prelude.{◌≡◌, ◌≤◌, length};
ghost use Rattle.model.specs.Replicas.{most_entries};
ghost use Rattle.model.specs.StableHistory.{stable_history};
ghost use Rattle.stable_entries.specs.Pick.{OfShard};
ghost use Rattle.stable_entries.specs.StableEntries.{entries_at, HasEntries};

use crate::pick::longest;
use types::layout::{ENTRIES, STABLE};

// A shard's stable history: the stable prefix of the replica that the pick finds.
#[tactic(auto, using(crate::proofs::Longest::picked_entries))]
pub fn stable_history(state: &[u64], shard: u64) -> &[u64]
    requires { OfShard state.now shard }
    ensures value { result.now ≡ stable_history state.now shard }
    ensures few { length result.now ≤ most_entries }
{
    stable_prefix(state, longest(state, shard))
}

// The stable prefix of the replica at a place.
#[tactic(auto, using(crate::proofs::Stable::entries_part))]
pub fn stable_prefix(state: &[u64], place: usize) -> &[u64]
    requires { HasEntries state.now place }
    ensures value { result.now ≡ entries_at state.now place }
    ensures few { length result.now ≤ most_entries }
{
    let from = place + ENTRIES;
    let end = from + (state[place + STABLE] as usize);
    &state[from..end]
}
