// Kind 5, install: the next configuration of a shard, issued in the history of its sequencer. No entry point: the state is known to be well-formed,
// and the step's shard and index to be in range. The third and the fourth number are tested here (7).

#![tactic(auto)]

ghost use Rattle.std.specs.Prelude.{◌≡◌, Ok, IfOk};
ghost use Rattle.types.specs.Rejections.{answer_number};
ghost use Rattle.model.specs.Layout.{sequencer};
ghost use Rattle.lookup.specs.Ready.{ReadyHost, Placed};
ghost use Rattle.lookup.specs.FoundReplicas.{found_of};
ghost use Rattle.lookup.specs.KindContracts.{ReadyKind, kind_answer, kind_after};

use crate::issues::is_issue_for;
use crate::next::install_next;
use crate::wedged::is_newest_wedged;
use entry_search::is_issued;
use lookup::name::Named;
use step_numbers::are_numbers;
use types::kind::Kind;
use types::layout::{ENTRIES, INSTALLED, STABLE};
use types::rejection::Rejection;

mod issues;
mod next;
mod wedged;

// The place of a host's replica in the same configuration of the sequencer of its shard, or the rejection (10 or 11).
fn issuer(state: &[u64], at: Named, host: u64) -> Result<usize, Rejection>
    requires { ReadyHost state.now at.z at.j host }
    ensures value { result ≡ found_of state.now (sequencer state.now at.z) at.j host }
    ensures placed { IfOk result (λ place. Placed state.now place) }
{
    let sequencer = Named {
        z: state[at.head()] as usize,
        j: at.j,
    };
    lookup::find(state, sequencer, host)
}

// Installs what a place of the issuer's history has: the next configuration pending, or the rejection (7, 10, 11, 20, 21, 24, 22) and the state as it
// was.
pub fn install(
    state: &mut [u64],
    shards: usize,
    at: Named,
    host: u64,
    place: u64,
) -> Result<(), Rejection>
    requires { ReadyKind state.old shards at.z at.j }
    ensures value { answer_number result ≡ kind_answer (Ok Kind.Install) state.old at.z at.j host place }
    ensures state_after { state.new ≡ kind_after (Ok Kind.Install) state.old at.z at.j host place }
{
    if !are_numbers(Kind::Install, shards, host, place) {
        return Err(Rejection::OutOfRange);
    }
    let p = issuer(state, at, host)?;
    if state[p + STABLE] <= place {
        return Err(Rejection::NoIssue);
    }
    let from = p + ENTRIES;
    let end = from + (place as usize);
    let e = state[end];
    if !is_issue_for(at.z, e) {
        return Err(Rejection::NoIssue);
    }
    if issue_words::issue_index(e) != state[at.head() + INSTALLED] + 1 {
        return Err(Rejection::WrongIndex);
    }
    if !is_newest_wedged(state, at.z) {
        return Err(Rejection::NotWedged);
    }
    if is_issued(&state[from..end], e) {
        return Err(Rejection::IssuedBefore);
    }
    install_next(
        state,
        at.z,
        issue_words::issue_members(e),
        issue_words::issue_orderer(e),
    );
    Ok(())
}
