// The replay of a log.
ghost use Rattle.std.specs.Prelude.{◌≡◌};
ghost use Rattle.word_outputs.specs.Replays.{replay_answer, state_after, report_after};

use types::rejection::Rejection;
use word_outputs::words::{REPORT_WORDS, put_replay};

// Replays a log with a budget of steps: 0 or the number of the damage, and the report, or the rejection and nothing written.
#[unsafe(no_mangle)]
pub extern "C" fn penkwadar_replay(
    state: &mut [u64],
    log: &[u8],
    budget: u64,
    report: &mut [u64],
) -> u64
    ensures value { result ≡ replay_answer state.old log.now budget report.old }
    ensures state_after { state.new ≡ state_after state.old log.now budget report.old }
    ensures report_after { report.new ≡ report_after state.old log.now budget report.old }
{
    if report.len() < REPORT_WORDS {
        return u64::from(Rejection::OutputLength);
    }
    put_replay(report, replay::replay(state, log, budget))
}
