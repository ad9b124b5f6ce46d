// A replica's stable prefix, copied to an output: what a host shows.
ghost use Rattle.types.specs.Rejections.{answer_count, answer_number};
ghost use Rattle.std.specs.Prelude.{◌≡◌};
ghost use Rattle.histories.specs.Prefix.{prefix_rejection, prefix_count, prefix_listing, after_prefix};

use crate::named::find_named;
use stable_entries::copy::copy_entries;
use types::rejection::Rejection;

// Copies the stable prefix of a host's replica to the start of an output: how many entries it has; a rejection (1, 7, 9, 10, 11 or 8) leaves the
// output untouched.
pub fn stable_prefix(
    state: &[u64],
    shard: u64,
    index: u64,
    host: u64,
    out: &mut [u64],
) -> Result<usize, Rejection>
    ensures result_value { answer_number result ≡ prefix_rejection state.now shard index host out.old }
    ensures result_value_2 { answer_count result ≡ prefix_count state.now shard index host out.old }
    ensures value { result ≡ prefix_listing state.now shard index host out.old }
    ensures out_after { out.new ≡ after_prefix state.now shard index host out.old }
{
    let place = find_named(state, shard, index, host)?;
    copy_entries(state, place, out)
}
