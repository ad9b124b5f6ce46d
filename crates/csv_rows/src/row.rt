// The row of one entry.
ghost use Rattle.std.specs.Prelude.{◌≡◌, [], ◌∷◌, ◌++◌, length};
ghost use Rattle.model.specs.Transcript.{decimal};
ghost use Rattle.decimal_text.specs.Appended.{HasRoom, Appended};
ghost use Rattle.csv_rows.specs.Format.{comma};
ghost use Rattle.csv_rows.specs.Room.{entry_text};

use crate::kind::{append_kind, kind_name};
use decimal_text::decimal::width;
use decimal_text::text::Text;

// A row has three commas and a line break.
const SEPARATORS: usize = 5;

// How long the row of an entry is.
#[tactic(auto, using(crate::proofs::RowTexts::entry_length, crate::proofs::RowTexts::kind_most, decimal_text::proofs::DecimalLaws::decimal_most))]
pub fn row_length(shard: u64, place: u64, entry: u64) -> usize
    ensures { result ≡ length (entry_text shard place entry) }
{
    width(shard) + width(place) + kind_name(entry).len() + width(entry) + SEPARATORS
}

// Appends the row of an entry.
#[tactic(auto, using(decimal_text::proofs::Appending::appending, crate::proofs::RowTexts::entry_parts))]
pub fn append_row(text: &mut Text<'_>, shard: u64, place: u64, entry: u64)
    requires { HasRoom text.old (entry_text shard place entry) }
    ensures { Appended text.old (entry_text shard place entry) text.new }
{
    append_field(text, shard);
    append_field(text, place);
    append_kind(text, entry);
    text.byte(b',');
    text.decimal(entry);
    text.bytes(b"\r\n");
}

// Appends a number and the comma after it.
fn append_field(text: &mut Text<'_>, n: u64)
    requires { HasRoom text.old (decimal n ++ comma ∷ []) }
    ensures { Appended text.old (decimal n ++ comma ∷ []) text.new }
{
    text.decimal(n);
    text.byte(b',');
}
