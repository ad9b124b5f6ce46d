// Entries copied to the start of an output.
ghost use Rattle.std.specs.Prelude.{◌≡◌};
ghost use Rattle.types.specs.Rejections.{answer_number, answer_count};
ghost use Rattle.stable_entries.specs.StableEntries.{HasEntries, copying_rejection, copied_count, copying, after_copying};

use crate::history::stable_prefix;
use types::rejection::Rejection;

// The stable prefix of the replica at a place: how many entries were copied, or rejection 8 and the output untouched.
pub fn copy_entries(state: &[u64], place: usize, out: &mut [u64]) -> Result<usize, Rejection>
    requires { HasEntries state.now place }
    ensures result_value { answer_number result ≡ copying_rejection state.now place out.old }
    ensures result_value_2 { answer_count result ≡ copied_count state.now place out.old }
    ensures value { result ≡ copying state.now place out.old }
    ensures out_after { out.new ≡ after_copying state.now place out.old }
{
    let entries = stable_prefix(state, place);
    let count = entries.len();
    if out.len() < count {
        return Err(Rejection::OutputLength);
    }
    out[..count].copy_from_slice(entries);
    Ok(count)
}
