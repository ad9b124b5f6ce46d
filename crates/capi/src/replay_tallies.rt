// The replay of a log with a tally in seventeen words of an output: the counts of boxes 0 to 15, and that of no box.
ghost use Rattle.std.specs.Prelude.{◌≡◌};
ghost use Rattle.word_outputs.specs.TallyOutputs.{tally_answer, tally_state_after, tally_report_after, tally_words_after};

use tallies::tallied::replay_by_value;
use types::rejection::Rejection;
use word_outputs::tally_words::{put_tally, tally_in};
use word_outputs::words::{REPORT_WORDS, put_replay};

// A count for each box, and one for the steps that name none.
const TALLY_WORDS: usize = 17;

// Replays as `penkwadar_replay` does, with a tally of the rejections: started from zero, or left as it was where the replay is rejected.
#[unsafe(no_mangle)]
pub extern "C" fn penkwadar_replay_tally(
    state: &mut [u64],
    log: &[u8],
    budget: u64,
    report: &mut [u64],
    tally: &mut [u64],
) -> u64
    ensures value { result ≡ tally_answer state.old log.now budget report.old tally.old }
    ensures state_after { state.new ≡ tally_state_after state.old log.now budget report.old tally.old }
    ensures report_after { report.new ≡ tally_report_after state.old log.now budget report.old tally.old }
    ensures tally_after { tally.new ≡ tally_words_after state.old log.now budget report.old tally.old }
{
    if report.len() < REPORT_WORDS {
        return u64::from(Rejection::OutputLength);
    }
    if tally.len() < TALLY_WORDS {
        return u64::from(Rejection::OutputLength);
    }
    let before = tally_in(tally);
    let r = replay_by_value(state, log, budget, before);
    put_tally(tally, r.tally);
    put_replay(report, r.report)
}
