// The whole text: the header, and the rows of the shards one after the other.
ghost use Rattle.std.specs.Prelude.{◌≡◌, ◌≤◌, length};
ghost use Rattle.std.proofs.lemmas.List.Edits.{sets};
ghost use Rattle.decimal_text.specs.Appended.{HasRoom, Appended};
ghost use Rattle.csv_rows.specs.Csv.{csv};
ghost use Rattle.csv_rows.specs.Room.{FormedOf};

use csv_rows::history::{append_history, history_length};
use decimal_text::text::Text;
use stable_entries::history::stable_history;

// How long the header row is.
pub const HEADER_BYTES: usize = 23;

// How long the rows of a shard are at most.
pub const SHARD_MOST: usize = 1278;

// How long the text of a well-formed state is.
#[tactic(auto, using(crate::proofs::StateText::state_parts), unfolding(csv_rows::specs::Format::row_text))]
pub fn text_length(state: &[u64], shards: usize) -> usize
    requires { FormedOf state.now shards }
    ensures { result ≡ length (csv state.now) }
{
    let mut sum = HEADER_BYTES;
    for shard in 0..shards as u64 {
        sum += history_length(shard, stable_history(state, shard));
    }
    sum
}

// Writes the text of a well-formed state to the start of an output that has room for it, and returns its length.
pub fn write_text(out: &mut [u8], state: &[u64], shards: usize) -> usize
    requires of { FormedOf state.now shards }
    requires room { length (csv state.now) ≤ length out.old }
    ensures value { result ≡ length (csv state.now) }
    ensures out_after { out.new ≡ sets out.old 0 (csv state.now) }
{
    let mut text = Text::new(out, 0);
    append_text(&mut text, state, shards);
    text.end()
}

// Appends the text of a well-formed state.
#[tactic(auto, using(crate::proofs::StateText::state_parts), unfolding(csv_rows::specs::Format::row_text))]
fn append_text(text: &mut Text<'_>, state: &[u64], shards: usize)
    requires of { FormedOf state.now shards }
    requires room { HasRoom text.old (csv state.now) }
    ensures { Appended text.old (csv state.now) text.new }
{
    text.bytes(b"zone,place,kind,entry\r\n");
    for shard in 0..shards as u64 {
        append_history(text, shard, stable_history(state, shard));
    }
}
