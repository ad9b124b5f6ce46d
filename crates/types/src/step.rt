// A step: a kind and four numbers, passed by value.
ghost use Rattle.std.specs.Prelude.{◌≡◌};
ghost use Rattle.types.specs.Kinds.{kind_of, used_numbers};
ghost use Rattle.types.specs.StepNames.{shard_of, acting_host};

use crate::kind::Kind;

// The kind is any number: a step of no kind is tried too, and rejected. Then come the shard, the index, the third number, which is a host or an
// entry, and the fourth.
#[derive(Clone, Copy, Debug, PartialEq, Eq)]
pub struct Step {
    pub kind: u64,
    pub a: u64,
    pub b: u64,
    pub c: u64,
    pub d: u64,
}

impl Step {
    // The shard that the step names.
    #[tactic(auto, unfolding(crate::specs::StepNames::shard_of))]
    pub fn shard(self) -> u64
        ensures { result ≡ shard_of self }
    {
        self.a
    }

    // The acting host: the one that the step names; of an add, the orderer of the configuration named, which the caller tells.
    pub fn host(self, orderer: u64) -> u64
        ensures { result ≡ acting_host self orderer }
    {
        match Kind::try_from(self.kind) {
            Ok(kind) if kind.rules().host => self.c,
            Ok(_) => orderer,
            Err(_) => self.c,
        }
    }

    // How many numbers the step uses, none where its kind is no kind's number. The papers name this method; writers of steps ask the kind.
    pub fn used(self) -> usize
        ensures { result ≡ used_numbers (kind_of self.kind) }
    {
        match Kind::try_from(self.kind) {
            Ok(kind) => kind.used(),
            Err(_) => 0,
        }
    }
}
