// Kind 2, adopt: a replica takes over the orderer's history. No entry point: the state is known to be well-formed, and the step's shard and index to
// be in range. The third and the fourth number are tested here (7).

#![tactic(auto)]

ghost use Rattle.std.specs.Prelude.{◌≡◌, Ok};
ghost use Rattle.types.specs.Rejections.{answer_number};
ghost use Rattle.lookup.specs.KindContracts.{ReadyKind, kind_answer, kind_after};

use copying::copy_replica;
use lookup::name::Named;
use step_numbers::acting::acting_replica;
use types::kind::Kind;
use types::layout::{ACTIVE, LENGTH, ORIGIN, PENDING, STABLE};
use types::rejection::Rejection;

// A host adopts its orderer's history: the replica changed, or the rejection (7, 10, 11, 14, 12, 13) and the state as it was.
pub fn adopt(
    state: &mut [u64],
    shards: usize,
    at: Named,
    host: u64,
    d: u64,
) -> Result<(), Rejection>
    requires { ReadyKind state.old shards at.z at.j }
    ensures value { answer_number result ≡ kind_answer (Ok Kind.Adopt) state.old at.z at.j host d }
    ensures state_after { state.new ≡ kind_after (Ok Kind.Adopt) state.old at.z at.j host d }
{
    let p = acting_replica(state, Kind::Adopt, shards, at, host, d)?;
    if host == lookup::configuration_of(state, at).orderer {
        return Err(Rejection::IsOrderer);
    }
    if state[p] != ACTIVE {
        return Err(Rejection::WrongMode);
    }
    let o = lookup::orderer_place(state, at);
    if state[o] == PENDING {
        return Err(Rejection::NoSource);
    }
    let stable = state[p + STABLE]
        .max(state[o + STABLE])
        .min(state[o + LENGTH]);
    let origin = state[p + ORIGIN];
    copy_replica(state, p, o, ACTIVE, stable, origin);
    Ok(())
}
