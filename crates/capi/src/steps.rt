// One step from bytes and to bytes.
ghost use Rattle.std.specs.Prelude.{◌≡◌, ◌≤◌, [], ◌∷◌, length};
ghost use Rattle.model.specs.Log.{step_of};
ghost use Rattle.word_outputs.specs.StepOutputs.{read_answer, step_after, write_answer, out_after, byte_count_after};

use types::rejection::Rejection;
use types::step::Step;
use word_outputs::words::{STEP_WORDS, put_count, put_step};

// What is read where no bytes are left.
const NO_STEP: Step = Step {
    kind: 0,
    a: 0,
    b: 0,
    c: 0,
    d: 0,
};

// Reads the step at a position of a log: 0 and its words, all 0 at the end, or the rejection and nothing written.
#[unsafe(no_mangle)]
pub extern "C" fn penkwadar_read_step(log: &[u8], at: usize, step: &mut [u64]) -> u64
    ensures value { result ≡ read_answer log.now at step.old }
    ensures step_after { step.new ≡ step_after log.now at step.old }
{
    if step.len() < STEP_WORDS {
        return u64::from(Rejection::OutputLength);
    }
    match quick_reader::usual_step(log, at) {
        Some(reading) => {
            put_step(step, reading.step, reading.next as u64);
            0
        }
        None => read_any(log, at, step),
    }
}

// The same of any step, where the output has room. It is a call of its own, since the place for what `log_reader` answers is cleared at each call:
// beside the usual steps it made reading these take 1.2 to 1.3 of their time.
#[inline(never)]
fn read_any(log: &[u8], at: usize, step: &mut [u64]) -> u64
    requires { 6 ≤ length step.old }
    ensures value { result ≡ read_answer log.now at step.old }
    ensures step_after { step.new ≡ step_after log.now at step.old }
{
    match log_reader::read_step(log, at) {
        Ok(Some(reading)) => {
            put_step(step, reading.step, reading.next as u64);
            0
        }
        Ok(None) => {
            put_step(step, NO_STEP, 0);
            0
        }
        Err(rejection) => u64::from(rejection),
    }
}

// Writes a step at a position of an output: 0 and the count of its bytes, or the rejection and nothing written.
#[unsafe(no_mangle)]
pub extern "C" fn penkwadar_write_step(
    out: &mut [u8],
    at: usize,
    kind: u64,
    a: u64,
    b: u64,
    c: u64,
    d: u64,
    count: &mut [u64],
) -> u64
    ensures value { result ≡ write_answer out.old at (step_of kind (a ∷ b ∷ c ∷ d ∷ [])) count.old }
    ensures out_after { out.new ≡ out_after out.old at (step_of kind (a ∷ b ∷ c ∷ d ∷ [])) count.old }
    ensures count_after { count.new ≡ byte_count_after out.old at (step_of kind (a ∷ b ∷ c ∷ d ∷ [])) count.old }
{
    if count.len() < 1 {
        return u64::from(Rejection::OutputLength);
    }
    put_count(
        count,
        log_writer::write_step(out, at, Step { kind, a, b, c, d }),
    )
}
