// Kind 7, catch up: a pending replica begins from a peer, a replica of its own configuration that is not pending.
ghost use Rattle.std.specs.Prelude.{◌≡◌, Ok};
ghost use Rattle.types.specs.Rejections.{answer_number};
ghost use Rattle.lookup.specs.KindContracts.{ReadyKind, kind_answer, kind_after};

use copying::copy_replica;
use lookup::name::Named;
use step_numbers::acting::acting_replica;
use types::kind::Kind;
use types::layout::{ACTIVE, ORIGIN, PENDING, STABLE};
use types::rejection::Rejection;

// A host catches up with a peer: the replica active, or the rejection (7, 10, 11, 12, 13) and the state as it was.
pub fn catch_up(
    state: &mut [u64],
    shards: usize,
    at: Named,
    host: u64,
    peer: u64,
) -> Result<(), Rejection>
    requires { ReadyKind state.old shards at.z at.j }
    ensures value { answer_number result ≡ kind_answer (Ok Kind.CatchUp) state.old at.z at.j host peer }
    ensures state_after { state.new ≡ kind_after (Ok Kind.CatchUp) state.old at.z at.j host peer }
{
    let p = acting_replica(state, Kind::CatchUp, shards, at, host, peer)?;
    if state[p] != PENDING {
        return Err(Rejection::WrongMode);
    }
    let Ok(q) = lookup::find(state, at, peer) else {
        return Err(Rejection::NoSource);
    };
    if state[q] == PENDING {
        return Err(Rejection::NoSource);
    }
    let stable = state[q + STABLE];
    let origin = state[q + ORIGIN];
    copy_replica(state, p, q, ACTIVE, stable, origin);
    Ok(())
}
