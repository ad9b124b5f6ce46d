// The last line of the text.
ghost use Rattle.std.specs.Prelude.{Ok};
ghost use Rattle.model.specs.Transcript.{stop_text, last_line};
ghost use Rattle.decimal_text.specs.Appended.{HasRoom, Appended};

use decimal_text::text::Text;
use text_lines::number::{append_spaced, append_word};
use types::{Report, Stop};

// Appends how a replay stopped, then the steps tried, those rejected, and the bytes of whole steps.
#[tactic(auto, using(decimal_text::proofs::Appending::appending), unfolding(model::specs::Transcript::last_line, model::specs::Transcript::last_with))]
pub fn append_last(text: &mut Text<'_>, report: Report)
    requires { HasRoom text.old (last_line (Ok report)) }
    ensures { Appended text.old (last_line (Ok report)) text.new }
{
    append_stop(text, report.stop);
    append_spaced(text, report.tried);
    append_spaced(text, report.rejected);
    append_spaced(text, report.bytes);
    text.byte(b'\n');
}

// Appends how a replay stopped, and the number of its rejection where there is one.
#[tactic(auto, using(decimal_text::proofs::Appending::appending), unfolding(model::specs::Transcript::stop_text))]
fn append_stop(text: &mut Text<'_>, stop: Stop)
    requires { HasRoom text.old (stop_text stop) }
    ensures { Appended text.old (stop_text stop) text.new }
{
    match stop {
        Stop::Ended => text.bytes(b"ended"),
        Stop::Spent => text.bytes(b"spent"),
        Stop::Damaged(rejection) => append_word(text, b"damaged", u64::from(rejection)),
    }
}
