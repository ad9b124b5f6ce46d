// Numbers with a space before each.
ghost use Rattle.std.specs.Prelude.{◌++◌};
ghost use Rattle.model.specs.Transcript.{spaced, spaced_all};
ghost use Rattle.decimal_text.specs.Appended.{HasRoom, Appended};

use decimal_text::text::Text;

// Appends a space and a number.
#[tactic(auto, using(decimal_text::proofs::Appending::appending), unfolding(model::specs::Transcript::spaced))]
pub fn append_spaced(text: &mut Text<'_>, n: u64)
    requires { HasRoom text.old (spaced n) }
    ensures { Appended text.old (spaced n) text.new }
{
    text.byte(b' ');
    text.decimal(n);
}

// Appends a word, a space and a number.
pub fn append_word(text: &mut Text<'_>, word: &[u8], n: u64)
    requires { HasRoom text.old (word.now ++ spaced n) }
    ensures { Appended text.old (word.now ++ spaced n) text.new }
{
    text.bytes(word);
    append_spaced(text, n);
}

// Appends a space and a number for each of several numbers.
#[tactic(auto, using(crate::proofs::Spaced::number_parts), unfolding(model::specs::Transcript::spaced_all))]
pub fn append_all_spaced(text: &mut Text<'_>, numbers: &[u64])
    requires { HasRoom text.old (spaced_all numbers.now) }
    ensures { Appended text.old (spaced_all numbers.now) text.new }
{
    for n in numbers {
        append_spaced(text, *n);
    }
}
