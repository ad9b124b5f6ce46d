// A zone's stable history, and the stable prefix of one box.
ghost use Rattle.std.specs.Prelude.{◌≡◌};
ghost use Rattle.word_outputs.specs.ListOutputs.{history_answer, entries_after, entry_count_after, prefix_answer, prefix_after, prefix_count_after};

use types::rejection::Rejection;
use word_outputs::words::put_count;

// Copies a zone's stable history to an output: 0 and the count of its entries, or the rejection and nothing written.
#[unsafe(no_mangle)]
pub extern "C" fn penkwadar_stable_history(
    state: &[u64],
    zone: u64,
    out: &mut [u64],
    count: &mut [u64],
) -> u64
    ensures value { result ≡ history_answer state.now zone out.old count.old }
    ensures out_after { out.new ≡ entries_after state.now zone out.old count.old }
    ensures count_after { count.new ≡ entry_count_after state.now zone out.old count.old }
{
    if count.len() < 1 {
        return u64::from(Rejection::OutputLength);
    }
    put_count(count, histories::history::stable_history(state, zone, out))
}

// Copies the stable prefix of a box in a configuration to an output: 0 and the count of its entries, or the rejection and nothing written.
#[unsafe(no_mangle)]
pub extern "C" fn penkwadar_stable_prefix(
    state: &[u64],
    zone: u64,
    index: u64,
    host: u64,
    out: &mut [u64],
    count: &mut [u64],
) -> u64
    ensures value { result ≡ prefix_answer state.now zone index host out.old count.old }
    ensures out_after { out.new ≡ prefix_after state.now zone index host out.old count.old }
    ensures count_after { count.new ≡ prefix_count_after state.now zone index host out.old count.old }
{
    if count.len() < 1 {
        return u64::from(Rejection::OutputLength);
    }
    put_count(
        count,
        histories::prefix::stable_prefix(state, zone, index, host, out),
    )
}
