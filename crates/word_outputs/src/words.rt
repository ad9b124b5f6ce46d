// Words at the start of an output.
ghost use Rattle.std.specs.Prelude.{◌≡◌, ◌≤◌, length};
ghost use Rattle.std.proofs.lemmas.List.Edits.{sets};
ghost use Rattle.types.specs.Rejections.{answer_number};
ghost use Rattle.model.specs.Results.{report_number, stop_code};
ghost use Rattle.word_outputs.specs.WordOutputs.{step_words, words_of, reported_words, count_word};

use types::rejection::{Rejection, number_of};
use types::step::Step;
use types::{Report, Stop};

// How many words a report has, and a step that was read.
pub const REPORT_WORDS: usize = 4;

pub const STEP_WORDS: usize = 6;

// How a replay stopped, as a word: ended 0, spent 1, damaged 2.
#[tactic(auto, unfolding(model::specs::Results::stop_code))]
fn stop_word(stop: Stop) -> u64
    ensures { result ≡ stop_code stop }
{
    match stop {
        Stop::Ended => 0,
        Stop::Spent => 1,
        Stop::Damaged(_) => 2,
    }
}

// The four words of a report.
pub fn put_report(out: &mut [u64], report: Report)
    requires { 4 ≤ length out.old }
    ensures { out.new ≡ sets out.old 0 (words_of report) }
{
    let words = [
        stop_word(report.stop),
        report.tried,
        report.rejected,
        report.bytes,
    ];
    out[..REPORT_WORDS].copy_from_slice(&words);
}

// The report of a replay, and 0 or the number of the damage; or the rejection, and no word.
#[tactic(auto, unfolding(model::specs::Results::report_number, model::specs::Results::stop_number))]
pub fn put_replay(out: &mut [u64], answer: Result<Report, Rejection>) -> u64
    requires { 4 ≤ length out.old }
    ensures value { result ≡ report_number answer }
    ensures out_after { out.new ≡ sets out.old 0 (reported_words answer) }
{
    match answer {
        Ok(report) => {
            put_report(out, report);
            match report.stop {
                Stop::Damaged(rejection) => u64::from(rejection),
                Stop::Ended | Stop::Spent => 0,
            }
        }
        Err(rejection) => u64::from(rejection),
    }
}

// The six words of a step that was read: its numbers, and the position after it.
pub fn put_step(out: &mut [u64], step: Step, next: u64)
    requires { 6 ≤ length out.old }
    ensures { out.new ≡ sets out.old 0 (step_words step next) }
{
    let words = [step.kind, step.a, step.b, step.c, step.d, next];
    out[..STEP_WORDS].copy_from_slice(&words);
}

// The count of what was written or copied, and 0; or the rejection, and no word.
pub fn put_count(out: &mut [u64], answer: Result<usize, Rejection>) -> u64
    requires { 1 ≤ length out.old }
    ensures value { result ≡ answer_number answer }
    ensures out_after { out.new ≡ sets out.old 0 (count_word answer) }
{
    if let Ok(count) = answer {
        out[0] = count as u64;
    }
    number_of(&answer)
}
