// The program's text for a log.
ghost use Rattle.std.specs.Prelude.{◌≡◌};
ghost use Rattle.word_outputs.specs.Transcripts.{text_answer, text_after, length_after};

use types::rejection::Rejection;
use word_outputs::words::put_count;

// Writes the program's whole text for a log: 0 and its length, or the rejection and nothing written.
#[unsafe(no_mangle)]
pub extern "C" fn penkwadar_transcript(log: &[u8], out: &mut [u8], count: &mut [u64]) -> u64
    ensures value { result ≡ text_answer log.now out.old count.old }
    ensures out_after { out.new ≡ text_after log.now out.old count.old }
    ensures count_after { count.new ≡ length_after log.now out.old count.old }
{
    if count.len() < 1 {
        return u64::from(Rejection::OutputLength);
    }
    put_count(count, transcript::transcript(log, out))
}
