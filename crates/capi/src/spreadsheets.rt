// The text for spreadsheets.
ghost use Rattle.std.specs.Prelude.{◌≡◌};
ghost use Rattle.word_outputs.specs.Spreadsheets.{csv_answer, csv_after, csv_length_after};

use types::rejection::Rejection;
use word_outputs::words::put_count;

// Writes every zone's stable history as comma-separated text: 0 and its length, or the rejection and nothing written.
#[unsafe(no_mangle)]
pub extern "C" fn penkwadar_csv(state: &[u64], out: &mut [u8], count: &mut [u64]) -> u64
    ensures value { result ≡ csv_answer state.now out.old count.old }
    ensures out_after { out.new ≡ csv_after state.now out.old count.old }
    ensures count_after { count.new ≡ csv_length_after state.now out.old count.old }
{
    if count.len() < 1 {
        return u64::from(Rejection::OutputLength);
    }
    put_count(count, records::csv(state, out))
}
