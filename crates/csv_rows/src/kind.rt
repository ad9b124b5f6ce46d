// The name of an entry's kind.
ghost use Rattle.std.specs.Prelude.{◌≡◌};
ghost use Rattle.decimal_text.specs.Appended.{HasRoom, Appended};
ghost use Rattle.csv_rows.specs.Csv.{kind_name};

use decimal_text::text::Text;
use issue_words::is_issue;

// `issue` or `take`.
#[tactic(auto, using(crate::proofs::RowTexts::issue_name, crate::proofs::RowTexts::take_name))]
pub fn kind_name(entry: u64) -> &'static [u8]
    ensures { result.now ≡ kind_name entry }
{
    if is_issue(entry) { b"issue" } else { b"take" }
}

// Appends the name, by one of two calls, so that the compiler knows the length that is copied.
#[tactic(auto, using(decimal_text::proofs::Appending::appending, crate::proofs::RowTexts::issue_name, crate::proofs::RowTexts::take_name))]
pub(crate) fn append_kind(text: &mut Text<'_>, entry: u64)
    requires { HasRoom text.old (kind_name entry) }
    ensures { Appended text.old (kind_name entry) text.new }
{
    if is_issue(entry) {
        text.bytes(b"issue");
    } else {
        text.bytes(b"take");
    }
}
