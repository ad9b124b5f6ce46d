// The steps that logs mostly have, read with fewer branches than any step is (`log_reader`): those whose numbers have one byte each, and adds whose
// entry may have several. What they read is in `model`: `Log`.

#![tactic(auto)]

ghost use Rattle.types.specs.Rejections.{answer_number};
ghost use Rattle.std.specs.Prelude.{◌≡◌, ◌+◌, ◌||◌, leb, length, drop, is_some, Ok, Some, IfSome};
ghost use Rattle.model.specs.Log.{read_at};
ghost use Rattle.model.specs.Results.{reading_step, reading_next, read_rejection, step_read, next_read};
ghost use Rattle.quick_reader.specs.Short.{is_short_at};
ghost use Rattle.quick_reader.specs.Long.{is_long_add_at};

use crate::long::LongAdd;
use crate::short::Short;
use types::Reading;
use types::rejection::Rejection;

mod long;
mod short;

// So many bytes are looked at: no short step has more, and no add whose shard and index have one byte each.
const WINDOW: usize = 8;

// The bit of a byte that tells that more bytes of its number follow (`numbers::TOP_BIT`).
const TOP_BIT: u8 = 128;

// The step at a position of a log, with the position after it, where a short step or an add of a longer entry is there.
#[inline(always)]
pub fn usual_step(log: &[u8], at: usize) -> Option<Reading>
    ensures found { is_some result ≡ (is_short_at log.now at || is_long_add_at log.now at) }
    ensures value { IfSome result (λ reading. Ok (Some reading) ≡ read_at log.now at) }
{
    if let Some(short) = Short::at(log, at) {
        return Some(short.reading());
    }
    if let Some(add) = LongAdd::at(log, at) {
        return Some(add.reading());
    }
    None
}

// The step at a position of a log, with the position after it, or nothing where the log ends there. It is put into the loops over logs: as a call it
// would cost them up to a quarter of their time. So are `usual_step` and the methods of `Short` and `LongAdd`. What `log_reader` answers is taken
// apart, so that no step goes through its place in memory.
#[inline(always)]
pub fn read_step(log: &[u8], at: usize) -> Result<Option<Reading>, Rejection>
    ensures result_value { answer_number result ≡ read_rejection (drop at log.now) }
    ensures result_value_2 { reading_step result ≡ step_read (drop at log.now) }
    ensures result_value_3 { reading_next result ≡ next_read log.now at }
    ensures value { result ≡ read_at log.now at }
{
    if let Some(reading) = usual_step(log, at) {
        return Ok(Some(reading));
    }
    let Some(Reading { step, next }) = log_reader::read_step(log, at)? else {
        return Ok(None);
    };
    Ok(Some(Reading { step, next }))
}

// Whether the bytes that are looked at are left at a position.
fn has_window(log: &[u8], at: usize) -> bool
    ensures { result ≡ leb (at + 8) (length log.now) }
{
    at < log.len() && WINDOW <= log.len() - at
}
