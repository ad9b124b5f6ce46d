// What a history has against an entry that is to join it.
ghost use Rattle.std.specs.Prelude.{◌≡◌};
ghost use Rattle.types.specs.Rejections.{answer_number};
ghost use Rattle.model.specs.Checks.{first_of};
ghost use Rattle.model.specs.Layout.{replica_at};
ghost use Rattle.lookup.specs.Ready.{HoldsReplica};
ghost use Rattle.replica_steps.specs.Adds.{held_checks};

use entry_search::{has_entry, is_issued};
use types::layout::{ENTRIES, LENGTH};
use types::rejection::Rejection;

// What a history has against an entry: that it holds it (15), or another issue for the same shard and index (23). An issue that stands there is one
// for its own shard and index, so of an issue that is new one pass tells both.
fn conflict(history: &[u64], e: u64) -> Result<(), Rejection>
    ensures { answer_number result ≡ first_of (held_checks e history.now) }
{
    if issue_words::is_issue(e) {
        if !is_issued(history, e) {
            return Ok(());
        }
        if has_entry(history, e) {
            return Err(Rejection::EntryHeld);
        }
        return Err(Rejection::RivalIssue);
    }
    if has_entry(history, e) {
        return Err(Rejection::EntryHeld);
    }
    Ok(())
}

// What the history of the replica at p has against an entry.
pub fn conflict_at(state: &[u64], p: usize, e: u64) -> Result<(), Rejection>
    requires { HoldsReplica state.now p }
    ensures { answer_number result ≡ first_of (held_checks e (replica_at state.now p).history) }
{
    let from = p + ENTRIES;
    let end = from + (state[p + LENGTH] as usize);
    conflict(&state[from..end], e)
}
