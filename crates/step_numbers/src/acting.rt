// The replica of the acting host, as the kinds look for it whose steps name their host.
ghost use Rattle.std.specs.Prelude.{◌≡◌, true, Ok, IfOk};
ghost use Rattle.types.specs.Kinds.{names_host};
ghost use Rattle.types.specs.Rejections.{answer_number};
ghost use Rattle.model.specs.Checks.{first_of};
ghost use Rattle.lookup.specs.KindContracts.{ReadyKind};
ghost use Rattle.step_numbers.specs.Acting.{Acting, acting_checks};

use crate::are_numbers;
use lookup::name::Named;
use types::kind::Kind;
use types::rejection::Rejection;

// The place of the acting host's replica, the step's third and fourth number being in range, or the rejection (7, 10 or 11).
pub fn acting_replica(
    state: &[u64],
    kind: Kind,
    shards: usize,
    at: Named,
    host: u64,
    d: u64,
) -> Result<usize, Rejection>
    requires { ReadyKind state.now shards at.z at.j × (names_host (Ok kind) ≡ true) }
    ensures value { answer_number result ≡ first_of (acting_checks kind state.now at.z at.j host d) }
    ensures acting { IfOk result (λ place. Acting kind state.now at.z at.j host d place) }
{
    if !are_numbers(kind, shards, host, d) {
        return Err(Rejection::OutOfRange);
    }
    lookup::find(state, at, host)
}
