// Whose rejection a step's is: the acting host, or none.

#![tactic(auto)]

ghost use Rattle.std.specs.Prelude.{◌≡◌, ◌<◌, ◌==◌, ◌||◌, IfSome, unwrap_or};
ghost use Rattle.types.specs.Rejections.{answer_number};
ghost use Rattle.rejection_hosts.specs.RejectionHosts.{RejectedStep, orderer_named, count_of, no_host};

use lookup::name::Named;
use types::layout::HOSTS;
use types::rejection::Rejection;
use types::step::Step;

// The number after the hosts' is no host's.
pub const NO_HOST: u64 = HOSTS;

// The host that a step's answer counts for: the acting host; of an add, the orderer of the configuration named. None where no host, or no host's
// number, is named.
pub fn count_of(state: &[u64], s: Step, answer: Result<(), Rejection>) -> Option<u64>
    requires { RejectedStep state.now s answer }
    ensures value { unwrap_or result no_host ≡ count_of state.now s }
    ensures host { IfSome result (λ host. host < no_host) }
{
    let host = s.host(orderer_named(state, s, answer).unwrap_or(NO_HOST));
    (host < NO_HOST).then_some(host)
}

// Whether an answer is rejection 7 or 10, at which no orderer is named.
#[tactic(auto, unfolding(types::specs::Rejections::answer_number))]
fn is_unnamed(answer: Result<(), Rejection>) -> bool
    ensures { result ≡ (answer_number answer == 7 || answer_number answer == 10) }
{
    matches!(answer, Err(Rejection::OutOfRange | Rejection::NotInstalled))
}

// The orderer of the configuration that a step names, none where it was answered by 7 or 10.
fn orderer_named(state: &[u64], s: Step, answer: Result<(), Rejection>) -> Option<u64>
    requires { RejectedStep state.now s answer }
    ensures { unwrap_or result no_host ≡ orderer_named state.now s }
{
    if is_unnamed(answer) {
        return None;
    }
    let at = Named {
        z: s.shard() as usize,
        j: (s.b - 1) as usize,
    };
    Some(lookup::configuration_of(state, at).orderer)
}
