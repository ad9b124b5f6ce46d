// The text for spreadsheets: every shard's stable history as rows of comma-separated fields, written into a borrowed output. What it says is in
// `csv_rows`: `Csv`.

#![tactic(auto, using(decimal_text::proofs::Appending::appending))]

ghost use Rattle.types.specs.Rejections.{answer_count, answer_number};
ghost use Rattle.std.specs.Prelude.{◌≡◌};
ghost use Rattle.csv_rows.specs.Csv.{csv_rejection, csv_count, csv_writing, after_csv};

use crate::text::{HEADER_BYTES, SHARD_MOST};
use types::rejection::Rejection;

mod text;

// Writes the text of a state: its length, or the rejection (1, 9 or 8), which leaves the output untouched. The text is measured only where it might
// not fit.
pub fn csv(state: &[u64], out: &mut [u8]) -> Result<usize, Rejection>
    ensures result_value { answer_number result ≡ csv_rejection state.now out.old }
    ensures result_value_2 { answer_count result ≡ csv_count state.now out.old }
    ensures value { result ≡ csv_writing state.now out.old }
    ensures out_after { out.new ≡ after_csv state.now out.old }
{
    let shards = wellformed::check(state)?;
    if out.len() < HEADER_BYTES + SHARD_MOST * shards
        && out.len() < text::text_length(state, shards)
    {
        return Err(Rejection::OutputLength);
    }
    Ok(text::write_text(out, state, shards))
}
