// Kind 1, add: an entry goes last in the orderer's history.
ghost use Rattle.std.specs.Prelude.{◌≡◌, Ok};
ghost use Rattle.types.specs.Rejections.{answer_number};
ghost use Rattle.model.specs.Add.{may_issue};
ghost use Rattle.lookup.specs.KindContracts.{kind_answer, kind_after};
ghost use Rattle.replica_steps.specs.Adds.{FormedEntry, ReadyAdd};

use crate::entries::conflict_at;
use lookup::name::Named;
use step_numbers::are_numbers;
use types::kind::Kind;
use types::layout::{ACTIVE, ENTRIES, LENGTH, MOST_ENTRIES, SHARD_WORDS};
use types::rejection::Rejection;

// Whether an entry may stand in shard z: a take, or an issue for a shard that z sequences.
fn may_issue(state: &[u64], z: usize, e: u64) -> bool
    requires { FormedEntry state.now e }
    ensures { result ≡ may_issue state.now z e }
{
    if !issue_words::is_issue(e) {
        return true;
    }
    let shard = issue_words::issue_shard(e) as usize;
    state[shard * SHARD_WORDS] == z as u64
}

// Adds an entry where its orderer acts: the entry added, or the rejection (7, 10, 12, 17, 15, 23, 16) and the state as it was.
pub fn add(
    state: &mut [u64],
    shards: usize,
    at: Named,
    orderer: u64,
    e: u64,
    d: u64,
) -> Result<(), Rejection>
    requires { ReadyAdd state.old shards at.z at.j orderer }
    ensures value { answer_number result ≡ kind_answer (Ok Kind.Add) state.old at.z at.j e d }
    ensures state_after { state.new ≡ kind_after (Ok Kind.Add) state.old at.z at.j e d }
{
    if !are_numbers(Kind::Add, shards, e, d) {
        return Err(Rejection::OutOfRange);
    }
    let p = lookup::find(state, at, orderer)?;
    if state[p] != ACTIVE {
        return Err(Rejection::WrongMode);
    }
    if !may_issue(state, at.z, e) {
        return Err(Rejection::NotSequencer);
    }
    conflict_at(state, p, e)?;
    let len = state[p + LENGTH];
    if MOST_ENTRIES <= len {
        return Err(Rejection::HistoryFull);
    }
    state[p + ENTRIES + (len as usize)] = e;
    state[p + LENGTH] = len + 1;
    Ok(())
}
