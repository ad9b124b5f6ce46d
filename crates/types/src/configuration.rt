// A configuration by value: where its replicas' words begin, its member set and its orderer.
ghost use Rattle.std.specs.Prelude.{◌≡◌, ◌+◌, ◌*◌, ◌<◌, ◌^◌};
ghost use Rattle.types.specs.Members.{has_member, size, replica_number};
ghost use Rattle.types.specs.ReplicaPlace.{replica_place};

use crate::layout::REPLICA_WORDS;

// A member set: the bit of each host in it is set.
#[derive(Clone, Copy, Debug, PartialEq, Eq)]
pub struct Members(pub u64);

impl Members {
    // How many hosts are in the set: its count of ones.
    pub fn size(self) -> u32
        ensures { result ≡ size self.0 }
    {
        self.0.count_ones()
    }

    // Whether a host is in the set.
    #[tactic(auto, unfolding(crate::specs::Members::has_member))]
    pub fn has(self, host: u64) -> bool
        requires { host < 16 }
        ensures { result ≡ has_member self.0 host }
    {
        (self.0 >> host) % 2 == 1
    }

    // How many hosts of the set are below a host: the number of its replica.
    pub fn below(self, host: u64) -> u32
        requires { host < 16 }
        ensures { result ≡ replica_number self.0 host }
    {
        (self.0 % (1 << host)).count_ones()
    }
}

// The member set is a word here, as in the definitions of configurations.
#[derive(Clone, Copy, Debug, PartialEq, Eq)]
pub struct Configuration {
    pub place: usize,
    pub members: u64,
    pub orderer: u64,
}

impl Configuration {
    // How many replicas the configuration has.
    pub fn size(self) -> u32
        ensures { result ≡ size self.members }
    {
        Members(self.members).size()
    }

    // Whether a host is a member.
    pub fn has(self, host: u64) -> bool
        requires { host < 16 }
        ensures { result ≡ has_member self.members host }
    {
        Members(self.members).has(host)
    }

    // The place of a host's replica, 64 words each.
    #[tactic(auto, unfolding(crate::specs::ReplicaPlace::replica_place))]
    pub fn replica(self, host: u64) -> usize
        requires { (host < 16) × (self.place < 2 ^ 32) }
        ensures { result ≡ replica_place self host }
    {
        let number = Members(self.members).below(host) as usize;
        self.place + REPLICA_WORDS * number
    }
}
