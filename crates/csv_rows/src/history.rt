// The rows of one history.
ghost use Rattle.std.specs.Prelude.{◌≡◌, ◌≤◌, length};
ghost use Rattle.model.specs.Replicas.{most_entries};
ghost use Rattle.decimal_text.specs.Appended.{HasRoom, Appended};
ghost use Rattle.csv_rows.specs.Room.{history_text};

use crate::row::{append_row, row_length};
use decimal_text::text::Text;

// Places count from 0.
const FIRST_PLACE: u64 = 0;

// How long the rows of a history are. This is asked only for an output that may be too short, so lengths are not counted with the bytes.
#[tactic(auto, using(crate::proofs::TextParts::history_parts, crate::proofs::RowTexts::history_bytes))]
pub fn history_length(shard: u64, entries: &[u64]) -> usize
    requires { length entries.now ≤ most_entries }
    ensures { result ≡ length (history_text shard entries.now) }
{
    let mut sum = 0;
    for (i, entry) in entries.iter().enumerate() {
        sum += row_length(shard, FIRST_PLACE + i as u64, *entry);
    }
    sum
}

// Appends the rows of a history.
#[tactic(auto, using(crate::proofs::TextParts::history_parts))]
pub fn append_history(text: &mut Text<'_>, shard: u64, entries: &[u64])
    requires { HasRoom text.old (history_text shard entries.now) }
    ensures { Appended text.old (history_text shard entries.now) text.new }
{
    for (i, entry) in entries.iter().enumerate() {
        append_row(text, shard, FIRST_PLACE + i as u64, *entry);
    }
}
