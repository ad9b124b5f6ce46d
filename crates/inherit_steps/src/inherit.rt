// Kind 6, inherit: a pending replica begins from an immutable one of the configuration before.
ghost use Rattle.std.specs.Prelude.{◌≡◌, Ok};
ghost use Rattle.types.specs.Rejections.{answer_number};
ghost use Rattle.lookup.specs.KindContracts.{ReadyKind, kind_answer, kind_after};

use copying::copy_replica;
use lookup::name::Named;
use step_numbers::acting::acting_replica;
use types::kind::Kind;
use types::layout::{ACTIVE, IMMUTABLE, PENDING, STABLE};
use types::rejection::Rejection;

// A host inherits the history of a source: the replica active, or the rejection (7, 10, 11, 12, 13) and the state as it was.
pub fn inherit(
    state: &mut [u64],
    shards: usize,
    at: Named,
    host: u64,
    source: u64,
) -> Result<(), Rejection>
    requires { ReadyKind state.old shards at.z at.j }
    ensures value { answer_number result ≡ kind_answer (Ok Kind.Inherit) state.old at.z at.j host source }
    ensures state_after { state.new ≡ kind_after (Ok Kind.Inherit) state.old at.z at.j host source }
{
    let p = acting_replica(state, Kind::Inherit, shards, at, host, source)?;
    if state[p] != PENDING {
        return Err(Rejection::WrongMode);
    }
    let before = Named {
        z: at.z,
        j: at.j - 1,
    };
    let Ok(q) = lookup::find(state, before, source) else {
        return Err(Rejection::NoSource);
    };
    if state[q] != IMMUTABLE {
        return Err(Rejection::NoSource);
    }
    let stable = state[q + STABLE];
    copy_replica(state, p, q, ACTIVE, stable, source + 1);
    Ok(())
}
