// The lines of the steps: each step of the log is read, tried and printed.
ghost use Rattle.std.specs.Prelude.{◌≡◌, length};
ghost use Rattle.model.specs.Layout.{shards_of};
ghost use Rattle.model.specs.Transcript.{program_budget};
ghost use Rattle.lookup.specs.Ready.{Formed};
ghost use Rattle.replay.specs.Run.{run_report, after_run};
ghost use Rattle.decimal_text.specs.Appended.{HasRoom, Appended};
ghost use Rattle.transcript.specs.Text.{step_line, run_lines};

use decimal_text::text::Text;
use machine::step_inside;
use quick_reader::read_step;
use replay::stopped;
use text_lines::number::append_spaced;
use types::rejection::number_of;
use types::{Report, Stop};

// How many steps the program tries at most.
const BUDGET: u64 = 65535;

// Tries the steps of a log on a well-formed state of so many shards, as many as the budget allows, and appends a line for each: how the run stopped,
// the steps tried, those rejected, and the bytes of whole steps. A loop of its own beside the one of `replay`, which keeps no answer.
pub fn append_steps(text: &mut Text<'_>, state: &mut [u64], shards: usize, log: &[u8]) -> Report
    requires formed { Formed state.old }
    requires count { shards ≡ shards_of (length state.old) }
    requires room { HasRoom text.old (run_lines state.old log.now) }
    ensures value { result ≡ run_report state.old log.now program_budget }
    ensures state_after { state.new ≡ after_run state.old log.now program_budget }
    ensures lines { Appended text.old (run_lines state.old log.now) text.new }
{
    let mut at = 0;
    let mut rejected = 0;
    for tried in 0..BUDGET {
        match read_step(log, at) {
            Ok(Some(reading)) => {
                let answer = step_inside(state, shards, reading.step);
                append_line(text, tried + 1, reading.step.kind, number_of(&answer));
                rejected += u64::from(answer.is_err());
                at = reading.next;
            }
            Ok(None) => return stopped(Stop::Ended, tried, rejected, at),
            Err(rejection) => return stopped(Stop::Damaged(rejection), tried, rejected, at),
        }
    }
    let stop = if log.len() <= at {
        Stop::Ended
    } else {
        Stop::Spent
    };
    stopped(stop, BUDGET, rejected, at)
}

// Appends the line of a step: its number from 1, its kind, its rejection or 0.
#[tactic(auto, using(decimal_text::proofs::Appending::appending), unfolding(crate::specs::Text::step_line))]
fn append_line(text: &mut Text<'_>, n: u64, kind: u64, answer: u64)
    requires { HasRoom text.old (step_line n kind answer) }
    ensures { Appended text.old (step_line n kind answer) text.new }
{
    text.decimal(n);
    append_spaced(text, kind);
    append_spaced(text, answer);
    text.byte(b'\n');
}
