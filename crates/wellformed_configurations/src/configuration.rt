// A configuration: its head words and its four replicas.
ghost use Rattle.std.specs.Prelude.{◌≡◌, true, ◌+◌, ◌*◌, ◌≤◌, ltb, length};
ghost use Rattle.model.specs.Tests.{all_below};
ghost use Rattle.model.specs.Layout.{shard_words, configuration_words, part};
ghost use Rattle.types.specs.ReplicaPlace.{part_words};
ghost use Rattle.model.specs.WellFormed.{is_part, is_configuration_of};
ghost use Rattle.wellformed_origins.specs.Before.{HasBefore};

use lookup::name::Named;
use types::configuration::Configuration;
use types::layout::{
    CONFIGURATION_WORDS, CONFIGURATIONS, ENTRIES, INSTALLED, LENGTH, MEMBERS, ORDERERS,
    REPLICA_WORDS,
};
use wellformed_entries::entry::each_entry;
use wellformed_entries::members;
use wellformed_entries::zero::all_zero;
use wellformed_origins::origin;
use wellformed_replicas::replica;

// Whether the first `size` replicas at a place are those of members of configuration j. Replicas mostly agree: a history that was tested entry by
// entry is known, and the others are held against it first. At first an empty one is: it tells nothing.
fn all_replicas(state: &[u64], shards: usize, j: usize, place: usize, size: usize) -> bool
    requires { place + size * part_words ≤ length state.now }
    ensures { result ≡ all_below size (λ k. is_part shards j true (part state.now (place + k * part_words))) }
{
    let mut known: &[u64] = &[];
    for k in 0..size {
        let from = place + k * REPLICA_WORDS;
        let words = &state[from..from + REPLICA_WORDS];
        if !replica::is_shape(words, j) {
            return false;
        }
        let history = &words[ENTRIES..ENTRIES + (words[LENGTH] as usize)];
        if !replica::is_known(history, known) {
            if !each_entry(history, shards) {
                return false;
            }
            known = history;
        }
    }
    true
}

// Whether the four replicas at a place are those of configuration j, the first `size` of them members'. All others are 0.
pub fn all_parts(state: &[u64], shards: usize, j: usize, place: usize, size: usize) -> bool
    requires { (place + configuration_words ≤ length state.now) × (size ≤ 4) }
    ensures { result ≡ all_below 4 (λ k. is_part shards j (ltb k size) (part state.now (place + k * part_words))) }
{
    let from = place + size * REPLICA_WORDS;
    let end = place + CONFIGURATION_WORDS;
    all_replicas(state, shards, j, place, size) && all_zero(&state[from..end])
}

// Whether a configuration is well-formed. Its head words are read here: `lookup` reads those of states that are known to be well-formed.
#[tactic(auto, using(crate::proofs::Configurations::configuration_tests))]
pub fn is_configuration_of(state: &[u64], shards: usize, at: Named) -> bool
    requires { HasBefore state.now at.z at.j }
    ensures { result ≡ is_configuration_of state.now shards at.z at.j }
{
    let head = at.head();
    let c = Configuration {
        place: at.first(),
        members: state[head + MEMBERS + at.j],
        orderer: state[head + ORDERERS + at.j],
    };
    if (at.j as u64) < state[head + INSTALLED] {
        let size = c.size() as usize;
        members::is_configuration(c.members, c.orderer)
            && all_parts(state, shards, at.j, c.place, size)
            && origin::all_origins(state, at, size)
    } else {
        let end = c.place + CONFIGURATION_WORDS;
        c.members == 0 && c.orderer == 0 && all_zero(&state[c.place..end])
    }
}

// Whether the eight configurations of shard z are well-formed. A loop, since the test of each one requires that those before it passed.
pub fn all_configurations(state: &[u64], shards: usize, z: usize) -> bool
    requires { z * shard_words + shard_words ≤ length state.now }
    ensures { result ≡ all_below 8 (is_configuration_of state.now shards z) }
{
    for j in 0..CONFIGURATIONS {
        if !is_configuration_of(state, shards, Named { z, j }) {
            return false;
        }
    }
    true
}
