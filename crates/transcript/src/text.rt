// The whole text: the lines of the steps, of the two shards, and the last one.
ghost use Rattle.std.specs.Prelude.{◌≡◌, ◌≤◌, length};
ghost use Rattle.std.proofs.lemmas.List.Edits.{sets};
ghost use Rattle.model.specs.Transcript.{lines, transcript};

use crate::LONGEST_LOG;
use crate::last::append_last;
use crate::steps::append_steps;
use decimal_text::text::Text;
use setup::initial::write_shards;
use text_lines::shards::append_shard;
use types::layout::SHARD_WORDS;

// The program's state has two shards.
const SHARDS: usize = 2;

const STATE_WORDS: usize = SHARDS * SHARD_WORDS;

// Shard 0 has sequencer 1, hosts 0 and 1 and orderer 0; shard 1 has sequencer 0, hosts 2 and 3 and orderer 2.
const PLAN: &[u64] = &[1, 0b0011, 0, 0, 0b1100, 2];

// Writes the text at the start of an output that has room for it, and returns its length.
pub fn write_text(log: &[u8], out: &mut [u8]) -> usize
    requires { length (transcript log.now) ≤ length out.old }
    ensures value { result ≡ length (transcript log.now) }
    ensures out_after { out.new ≡ sets out.old 0 (transcript log.now) }
{
    if LONGEST_LOG < log.len() {
        let mut text = Text::new(out, 0);
        text.bytes(b"too long\n");
        return text.end();
    }
    write_lines(log, out)
}

// The same for a log that is not too long.
fn write_lines(log: &[u8], out: &mut [u8]) -> usize
    requires { length (lines log.now) ≤ length out.old }
    ensures value { result ≡ length (lines log.now) }
    ensures out_after { out.new ≡ sets out.old 0 (lines log.now) }
{
    let mut state = [0u64; STATE_WORDS];
    write_shards(&mut state, PLAN, SHARDS);
    let mut text = Text::new(out, 0);
    let report = append_steps(&mut text, &mut state, SHARDS, log);
    append_shard(&mut text, &state, 0);
    append_shard(&mut text, &state, 1);
    append_last(&mut text, report);
    text.end()
}
