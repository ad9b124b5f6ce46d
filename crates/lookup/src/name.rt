// The configuration that a step names: configuration j, counted from 0, of shard z.
ghost use Rattle.std.specs.Prelude.{◌≡◌, ◌*◌, ◌-◌, ◌<◌, ◌≤◌, ◌^◌};
ghost use Rattle.model.specs.Layout.{shard_words, place};

use types::layout::{CONFIGURATION_WORDS, HEAD_WORDS, REPLICA_WORDS, SHARD_WORDS};

#[derive(Clone, Copy, Debug, PartialEq, Eq)]
pub struct Named {
    pub z: usize,
    pub j: usize,
}

// Places fit: a shard whose words are in memory has a number below 2 ^ 52.
impl Named {
    // The configuration before, of the same shard.
    pub fn before(self) -> Named
        requires { 1 ≤ self.j }
        ensures { (result.z ≡ self.z) × (result.j ≡ self.j - 1) }
    {
        Named {
            z: self.z,
            j: self.j - 1,
        }
    }

    // Where the head words of its shard begin.
    pub fn head(self) -> usize
        requires { self.z < 2 ^ 52 }
        ensures { result ≡ self.z * shard_words }
    {
        self.z * SHARD_WORDS
    }

    // Where the words of its replicas begin.
    #[tactic(auto, unfolding(model::specs::Layout::place))]
    pub fn first(self) -> usize
        requires { (self.z < 2 ^ 52) × (self.j < 2 ^ 32) }
        ensures { result ≡ place self.z self.j 0 }
    {
        self.head() + HEAD_WORDS + self.j * CONFIGURATION_WORDS
    }

    // Where the words of its replica k begin.
    #[tactic(auto, unfolding(model::specs::Layout::place))]
    pub fn replica(self, k: usize) -> usize
        requires { (self.z < 2 ^ 52) × (self.j < 2 ^ 32) × (k < 2 ^ 32) }
        ensures { result ≡ place self.z self.j k }
    {
        self.first() + k * REPLICA_WORDS
    }
}
