// The replay that keeps a tally of its rejections, in place.
ghost use Rattle.std.specs.Prelude.{◌≡◌, length};
ghost use Rattle.model.specs.Layout.{shards_of};
ghost use Rattle.model.specs.Log.{read_log};
ghost use Rattle.model.specs.Replay.{after_replay};
ghost use Rattle.lookup.specs.Ready.{Formed};
ghost use Rattle.replay.specs.Run.{run_report, after_run};
ghost use Rattle.tallies.specs.Returns.{Returns};
ghost use Rattle.tallies.specs.Tally.{tally_of, tally_after};
ghost use Rattle.tallies.specs.TallyCounts.{nothing_counted};

use crate::tally::{Tally, count, zero};
use machine::step_inside;
use quick_reader::read_step;
use rejection_hosts::count_of;
use replay::stopped;
use types::rejection::Rejection;
use types::{Report, Stop};

// What a replay on a tally by value returns.
#[derive(Debug, Drop, PartialEq, Eq)]
pub struct Tallied {
    pub report: Result<Report, Rejection>,
    pub tally: Tally,
}

// Replays a log with a budget of steps, as `replay` does. The tally is started from zero and counts the rejections; a replay that is rejected leaves
// it.
pub fn replay_tally(
    state: &mut [u64],
    log: &[u8],
    budget: u64,
    tally: &mut Tally,
) -> Result<Report, Rejection>
    ensures returns { Returns state.old log.now budget result }
    ensures state_after { state.new ≡ after_replay state.old log.now budget }
    ensures tally_after { tally.new ≡ tally_after tally.old state.old log.now budget }
{
    let shards = wellformed::check(state)?;
    *tally = zero();
    Ok(run(state, shards, log, budget, tally))
}

// The same on a state that is known to be well-formed, of so many shards, with nothing counted yet. A loop of its own beside the one of `replay`,
// which counts for no host.
fn run(state: &mut [u64], shards: usize, log: &[u8], budget: u64, tally: &mut Tally) -> Report
    requires formed { Formed state.old }
    requires count { shards ≡ shards_of (length state.old) }
    requires zero { tally.old ≡ nothing_counted }
    ensures value { result ≡ run_report state.old log.now budget }
    ensures state_after { state.new ≡ after_run state.old log.now budget }
    ensures tally_after { tally.new ≡ tally_of state.old (read_log budget log.now).steps }
{
    let mut at = 0;
    let mut rejected = 0;
    for tried in 0..budget {
        match read_step(log, at) {
            Ok(Some(reading)) => {
                if let Err(rejection) = step_inside(state, shards, reading.step) {
                    count(tally, count_of(state, reading.step, Err(rejection)));
                    rejected += 1;
                }
                at = reading.next;
            }
            Ok(None) => return stopped(Stop::Ended, tried, rejected, at),
            Err(rejection) => return stopped(Stop::Damaged(rejection), tried, rejected, at),
        }
    }
    let stop = if log.len() <= at {
        Stop::Ended
    } else {
        Stop::Spent
    };
    stopped(stop, budget, rejected, at)
}

// The same on a tally by value, as C's function has it: its tally comes and goes as words.
pub fn replay_by_value(state: &mut [u64], log: &[u8], budget: u64, tally: Tally) -> Tallied
    ensures returns { Returns state.old log.now budget result.report }
    ensures tally_value { result.tally ≡ tally_after tally state.old log.now budget }
    ensures state_after { state.new ≡ after_replay state.old log.now budget }
{
    let mut t = tally;
    let report = replay_tally(state, log, budget, &mut t);
    Tallied { report, tally: t }
}
