// Entries looked for in a history: an entry itself, or an issue for a shard and an index. A history is mostly gone through to its end, so the tests
// are joined without an early exit, which the compiler turns into vectors.

#![tactic(auto)]

ghost use Rattle.std.specs.Prelude.{◌≡◌, ◌/◌, ◌^◌, eqb, true};
ghost use Rattle.model.specs.Tests.{contains};
ghost use Rattle.model.specs.Entries.{is_issue, issue_shard, issue_index};
ghost use Rattle.entry_search.specs.Searches.{issued_in};

use issue_words::SHARD_BIT;

// Whether an entry stands in a history.
pub fn has_entry(history: &[u64], e: u64) -> bool
    ensures { result ≡ contains e history.now }
{
    history.iter().fold(false, |any, x| any | (*x == e))
}

// Whether two words agree from the shard's lowest bit on: in the mark of an issue, the index and the shard.
fn is_alike(x: u64, e: u64) -> bool
    ensures { result ≡ eqb (x / 2 ^ 20) (e / 2 ^ 20) }
{
    x >> SHARD_BIT == e >> SHARD_BIT
}

// Whether an issue for the shard and the index of an issue e stands in a history.
pub fn is_issued(history: &[u64], e: u64) -> bool
    requires { is_issue e ≡ true }
    ensures { result ≡ issued_in (issue_shard e) (issue_index e) history.now }
{
    history.iter().fold(false, |any, x| any | is_alike(*x, e))
}
