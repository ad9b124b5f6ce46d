// A replica that a caller names by shard, index and host.
ghost use Rattle.std.specs.Prelude.{◌≡◌};
ghost use Rattle.histories.specs.NamedReplicas.{is_replica_name, found_named};

use lookup::name::Named;
use types::layout::HOSTS;
use types::rejection::Rejection;

// The place of a host's replica, in a state of which nothing is known, or the rejection (1, 7, 9, 10 or 11).
pub fn find_named(state: &[u64], shard: u64, index: u64, host: u64) -> Result<usize, Rejection>
    ensures { result ≡ found_named state.now shard index host }
{
    let shards = wellformed::shard_count(state.len())?;
    if !is_replica_name(shards, shard, index, host) {
        return Err(Rejection::OutOfRange);
    }
    if !wellformed::well_formed(state) {
        return Err(Rejection::NotWellFormed);
    }
    let at = Named {
        z: shard as usize,
        j: (index - 1) as usize,
    };
    lookup::find(state, at, host)
}

// Whether a shard, an index and a host are in range.
#[tactic(auto, unfolding(crate::specs::NamedReplicas::is_replica_name, types::specs::Members::is_host))]
fn is_replica_name(shards: usize, shard: u64, index: u64, host: u64) -> bool
    ensures { result ≡ is_replica_name shards shard index host }
{
    step_numbers::is_index_of(shards, shard, index) && host < HOSTS
}
