// The whole check of a state: its length, and then well-formedness, shard by shard.

#![tactic(auto)]

ghost use Rattle.std.specs.Prelude.{◌≡◌};
ghost use Rattle.model.specs.WellFormed.{well_formed};
ghost use Rattle.model.specs.Layout.{shards_of};
ghost use Rattle.wellformed.specs.Checked.{shard_count_of, checked};

use types::layout::SHARD_WORDS;
use types::rejection::Rejection;

pub mod sequencer;
pub mod shard;

// A state has so many shards.
const FEWEST_SHARDS: usize = 2;

const MOST_SHARDS: usize = 8;

// How many shards have a length together, 0 where no number of them has. All lengths are compared, without a division and without an early exit:
// `find`, a `match` or an `Option` takes up to three times as long where lengths change from call to call.
fn shards_of(len: usize) -> usize
    ensures { result ≡ shards_of len }
{
    let mut count = 0;
    for shards in FEWEST_SHARDS..=MOST_SHARDS {
        if len == shards * SHARD_WORDS {
            count = shards;
        }
    }
    count
}

// The number of shards of a state of `len` words, or rejection 1.
#[tactic(auto, unfolding(crate::specs::Checked::shard_count_of))]
pub fn shard_count(len: usize) -> Result<usize, Rejection>
    ensures { result ≡ shard_count_of len }
{
    let shards = shards_of(len);
    if shards == 0 {
        return Err(Rejection::StateLength);
    }
    Ok(shards)
}

// Whether a state is well-formed. Of a length that no state has this says nothing.
pub fn well_formed(state: &[u64]) -> bool
    ensures { result ≡ well_formed state.now }
{
    let shards = shard_count(state.len()).unwrap_or(0);
    shard::all_shards(state, shards) && sequencer::all_differ(state, SHARD_WORDS, shards)
}

// The number of shards of a well-formed state, or the rejection: 1 for its length, 9 where it is not well-formed.
pub fn check(state: &[u64]) -> Result<usize, Rejection>
    ensures { result ≡ checked state.now }
{
    let shards = shard_count(state.len())?;
    if !well_formed(state) {
        return Err(Rejection::NotWellFormed);
    }
    Ok(shards)
}
