// Kind 4, wedge: an active replica becomes immutable.
ghost use Rattle.std.specs.Prelude.{◌≡◌, Ok};
ghost use Rattle.types.specs.Rejections.{answer_number};
ghost use Rattle.lookup.specs.KindContracts.{ReadyKind, kind_answer, kind_after};

use lookup::name::Named;
use step_numbers::acting::acting_replica;
use types::kind::Kind;
use types::layout::{ACTIVE, IMMUTABLE};
use types::rejection::Rejection;

// Wedges a host's replica: the replica immutable, or the rejection (7, 10, 11, 12) and the state as it was.
pub fn wedge(
    state: &mut [u64],
    shards: usize,
    at: Named,
    host: u64,
    d: u64,
) -> Result<(), Rejection>
    requires { ReadyKind state.old shards at.z at.j }
    ensures value { answer_number result ≡ kind_answer (Ok Kind.Wedge) state.old at.z at.j host d }
    ensures state_after { state.new ≡ kind_after (Ok Kind.Wedge) state.old at.z at.j host d }
{
    let p = acting_replica(state, Kind::Wedge, shards, at, host, d)?;
    if state[p] != ACTIVE {
        return Err(Rejection::WrongMode);
    }
    state[p] = IMMUTABLE;
    Ok(())
}
