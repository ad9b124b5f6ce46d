// A shard's stable history, copied to an output.
ghost use Rattle.types.specs.Rejections.{answer_count, answer_number};
ghost use Rattle.std.specs.Prelude.{◌≡◌};
ghost use Rattle.histories.specs.History.{listing_rejection, listed_count, listing, after_listing};

use stable_entries::copy::copy_entries;
use stable_entries::pick::longest;
use types::rejection::Rejection;

// Copies a shard's stable history to the start of an output: how many entries it has; a rejection (1, 7, 9 or 8) leaves the output untouched.
pub fn stable_history(state: &[u64], shard: u64, out: &mut [u64]) -> Result<usize, Rejection>
    ensures result_value { answer_number result ≡ listing_rejection state.now shard out.old }
    ensures result_value_2 { answer_count result ≡ listed_count state.now shard out.old }
    ensures value { result ≡ listing state.now shard out.old }
    ensures out_after { out.new ≡ after_listing state.now shard out.old }
{
    let shards = wellformed::shard_count(state.len())?;
    if shards as u64 <= shard {
        return Err(Rejection::OutOfRange);
    }
    if !wellformed::well_formed(state) {
        return Err(Rejection::NotWellFormed);
    }
    let place = longest(state, shard);
    copy_entries(state, place, out)
}
