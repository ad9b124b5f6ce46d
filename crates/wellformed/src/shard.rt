// A shard: its sequencer, its count of configurations, these, and the rest of its head words.
ghost use Rattle.std.specs.Prelude.{◌≡◌, ◌+◌, ◌*◌, ◌≤◌, length};
ghost use Rattle.model.specs.Tests.{all_below};
ghost use Rattle.model.specs.Layout.{shard_words};
ghost use Rattle.model.specs.WellFormed.{is_sequencer, is_shard};

use types::layout::{CONFIGURATIONS, INSTALLED, REST, REST_WORDS, SHARD_WORDS};
use wellformed_configurations::configuration;
use wellformed_entries::zero::all_zero;

// Whether q may be the sequencer of shard z.
#[tactic(auto, unfolding(model::specs::WellFormed::is_sequencer))]
pub fn is_sequencer(shards: usize, z: usize, q: u64) -> bool
    ensures { result ≡ is_sequencer shards z q }
{
    q < (shards as u64) && q != (z as u64)
}

// Whether shard z is well-formed.
#[tactic(auto, using(crate::proofs::Shards::shard_tests))]
pub fn is_shard(state: &[u64], shards: usize, z: usize) -> bool
    requires { z * shard_words + shard_words ≤ length state.now }
    ensures { result ≡ is_shard state.now shards z }
{
    let at = z * SHARD_WORDS;
    let installed = state[at + INSTALLED];
    let first = at + REST;
    let end = first + REST_WORDS;
    is_sequencer(shards, z, state[at])
        && (1..=CONFIGURATIONS as u64).contains(&installed)
        && all_zero(&state[first..end])
        && configuration::all_configurations(state, shards, z)
}

// Whether all shards are well-formed.
pub fn all_shards(state: &[u64], shards: usize) -> bool
    requires { shards * shard_words ≤ length state.now }
    ensures { result ≡ all_below shards (is_shard state.now shards) }
{
    (0..shards).all(|z| is_shard(state, shards, z))
}
