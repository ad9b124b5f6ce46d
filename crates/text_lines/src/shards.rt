// The line of a shard: its stable history.
ghost use Rattle.model.specs.Transcript.{shard_line};
ghost use Rattle.stable_entries.specs.Pick.{OfShard};
ghost use Rattle.decimal_text.specs.Appended.{HasRoom, Appended};

use crate::number::{append_all_spaced, append_word};
use decimal_text::text::Text;
use stable_entries::history::stable_history;

// Appends the word `zone`, the shard's number, and the entries of its stable history.
#[tactic(auto, using(decimal_text::proofs::Appending::appending, crate::proofs::ShardText::shard_text_lem))]
pub fn append_shard(text: &mut Text<'_>, state: &[u64], shard: u64)
    requires of { OfShard state.now shard }
    requires room { HasRoom text.old (shard_line state.now shard) }
    ensures { Appended text.old (shard_line state.now shard) text.new }
{
    append_word(text, b"zone", shard);
    append_all_spaced(text, stable_history(state, shard));
    text.byte(b'\n');
}
