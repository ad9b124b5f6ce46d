// The program's whole text for a log, written into a borrowed output. What it says is in `model`: `Transcript`.

#![tactic(auto, using(decimal_text::proofs::Appending::appending))]

ghost use Rattle.types.specs.Rejections.{answer_count, answer_number};
ghost use Rattle.std.specs.Prelude.{◌≡◌};
ghost use Rattle.model.specs.Transcript.{transcript};
ghost use Rattle.transcript.specs.Text.{text_rejection, text_count, text_writing, after_text};

use types::rejection::Rejection;

mod last;
mod steps;
mod text;

// A longer log is too long.
pub const LONGEST_LOG: usize = 16384;

// No text is longer: the law `text_most_lem`.
pub const MOST: usize = 42232;

// Writes the text of a log: its length, or rejection 8 where the output is too short, which leaves it untouched. An output that is long enough for
// any text is written at once, another one from a space of its own.
pub fn transcript(log: &[u8], out: &mut [u8]) -> Result<usize, Rejection>
    ensures result_value { answer_number result ≡ text_rejection out.old (transcript log.now) }
    ensures result_value_2 { answer_count result ≡ text_count out.old (transcript log.now) }
    ensures value { result ≡ text_writing out.old (transcript log.now) }
    ensures out_after { out.new ≡ after_text out.old (transcript log.now) }
{
    if MOST <= out.len() {
        return Ok(text::write_text(log, out));
    }
    let mut space = [0u8; MOST];
    let len = text::write_text(log, &mut space);
    deliver(out, &space[..len])
}

// Hands a text to an output: its length, or rejection 8 where the output is too short, which leaves it untouched.
#[tactic(auto, using(crate::proofs::Delivery::handed_over), unfolding(crate::specs::Text::text_writing, crate::specs::Text::after_text))]
fn deliver(out: &mut [u8], text: &[u8]) -> Result<usize, Rejection>
    ensures value { result ≡ text_writing out.old text.now }
    ensures out_after { out.new ≡ after_text out.old text.now }
{
    let len = text.len();
    if out.len() < len {
        return Err(Rejection::OutputLength);
    }
    out[..len].copy_from_slice(text);
    Ok(len)
}
