// The numbers of a step: which kinds are kept or unknown, and which numbers are out of range. No state is needed for this but its number of shards.
// In `acting`, a state is looked into for the replica of the acting host too.

#![tactic(auto)]

ghost use Rattle.std.specs.Prelude.{◌≡◌, Ok, IfOk};
ghost use Rattle.types.specs.Kinds.{kind_of};
ghost use Rattle.types.specs.Rejections.{answer_number};
ghost use Rattle.model.specs.Steps.{are_numbers};
ghost use Rattle.step_numbers.specs.StepRanges.{is_index_of, range_rejection};

use types::kind::Kind;
use types::layout::{CONFIGURATIONS, HOSTS};
use types::rejection::Rejection;
use types::step::Step;

pub mod acting;

// Whether a shard and an index are in range.
#[tactic(auto, unfolding(crate::specs::StepRanges::is_index_of))]
pub fn is_index_of(shards: usize, shard: u64, index: u64) -> bool
    ensures { result ≡ is_index_of shards shard index }
{
    shard < shards as u64 && (1..=CONFIGURATIONS as u64).contains(&index)
}

// Whether the third and fourth number suit a kind: the third is a host or an entry, the fourth is at most the kind's largest, 0 where it is not used.
pub fn are_numbers(kind: Kind, shards: usize, c: u64, d: u64) -> bool
    ensures { result ≡ are_numbers (Ok kind) shards c d }
{
    let rules = kind.rules();
    let third = if rules.host {
        c < HOSTS
    } else {
        wellformed_entries::entry::is_entry(shards, c)
    };
    third && d <= rules.fourth
}

// The kind of a step whose kind, shard and index are in range where there are `shards` shards, or the rejection (3, 4 or 7).
pub fn kind_in_range(shards: usize, s: Step) -> Result<Kind, Rejection>
    ensures value { answer_number result ≡ range_rejection shards s }
    ensures kind { IfOk result (λ kind. Ok kind ≡ kind_of s.kind) }
{
    let kind = Kind::try_from(s.kind)?;
    if !is_index_of(shards, s.shard(), s.b) {
        return Err(Rejection::OutOfRange);
    }
    Ok(kind)
}
