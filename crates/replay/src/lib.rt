// A replay: steps are read and tried in order, on a state that is scanned once.

#![tactic(auto)]

ghost use Rattle.std.specs.Prelude.{◌≡◌, length};
ghost use Rattle.model.specs.Layout.{shards_of};
ghost use Rattle.model.specs.Replay.{rejected_in, replayed, report, after_replay};
ghost use Rattle.model.specs.Results.{replay_number, replay_code, replay_bytes, report_number, report_code, report_tried, report_rejected, report_bytes};
ghost use Rattle.lookup.specs.Ready.{Formed};
ghost use Rattle.replay.specs.Run.{report_of, run_report, after_run};

use machine::step_inside;
use quick_reader::read_step;
use types::rejection::Rejection;
use types::{Report, Stop};

// Replays a log with a budget of steps: how it stopped, the steps tried, those rejected, and the bytes of whole steps; or the rejection (1 or 9),
// with nothing tried.
pub fn replay(state: &mut [u64], log: &[u8], budget: u64) -> Result<Report, Rejection>
    ensures stop_value { report_number result ≡ replay_number state.old log.now budget }
    ensures stop_value_2 { report_code result ≡ replay_code state.old log.now budget }
    ensures tried_value { report_tried result ≡ length (replayed state.old log.now budget) }
    ensures rejected_value { report_rejected result ≡ rejected_in state.old (replayed state.old log.now budget) }
    ensures bytes_value { report_bytes result ≡ replay_bytes state.old log.now budget }
    ensures value { result ≡ report state.old log.now budget }
    ensures state_after { state.new ≡ after_replay state.old log.now budget }
{
    let shards = wellformed::check(state)?;
    Ok(run(state, shards, log, budget))
}

// The same on a state that is known to be well-formed, of so many shards.
fn run(state: &mut [u64], shards: usize, log: &[u8], budget: u64) -> Report
    requires formed { Formed state.old }
    requires count { shards ≡ shards_of (length state.old) }
    ensures value { result ≡ run_report state.old log.now budget }
    ensures state_after { state.new ≡ after_run state.old log.now budget }
{
    let mut at = 0;
    let mut rejected = 0;
    for tried in 0..budget {
        match read_step(log, at) {
            Ok(Some(reading)) => {
                let answer = step_inside(state, shards, reading.step);
                rejected += u64::from(answer.is_err());
                at = reading.next;
            }
            Ok(None) => return stopped(Stop::Ended, tried, rejected, at),
            Err(rejection) => return stopped(Stop::Damaged(rejection), tried, rejected, at),
        }
    }
    let stop = if log.len() <= at {
        Stop::Ended
    } else {
        Stop::Spent
    };
    stopped(stop, budget, rejected, at)
}

// A report.
pub fn stopped(stop: Stop, tried: u64, rejected: u64, at: usize) -> Report
    ensures { result ≡ report_of stop tried rejected at }
{
    Report {
        stop,
        tried,
        rejected,
        bytes: at as u64,
    }
}
