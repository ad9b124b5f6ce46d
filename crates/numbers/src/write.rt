// Numbers to bytes: how many, and writing them.
ghost use Rattle.std.specs.Prelude.{◌≡◌, ◌^◌, ◌<◌, length};
ghost use Rattle.model.specs.Numbers.{number_bytes};
ghost use Rattle.decimal_text.specs.Appended.{HasRoom, Appended};

use crate::{MOST_BYTES, TOP_BIT};
use decimal_text::text::Text;

// The least numbers that take two bytes, three, four and five.
const TWO_BYTES: u64 = 1 << 7;

const THREE_BYTES: u64 = 1 << 14;

const FOUR_BYTES: u64 = 1 << 21;

const FIVE_BYTES: u64 = 1 << 28;

// How many bytes a number takes.
pub fn number_length(n: u64) -> usize
    ensures { result ≡ length (number_bytes n) }
{
    match n {
        0..TWO_BYTES => 1,
        TWO_BYTES..THREE_BYTES => 2,
        THREE_BYTES..FOUR_BYTES => 3,
        FOUR_BYTES..FIVE_BYTES => 4,
        _ => MOST_BYTES,
    }
}

// Appends the bytes of a number. It is put into the writer of steps: as a call it makes them up to a seventh slower, with the position in memory.
// How many groups there are is told only by dividing, so the loop goes through no range.
#[inline(always)]
pub fn write_number(out: &mut Text, n: u64)
    requires { (n < 2 ^ 35) × HasRoom out.old (number_bytes n) }
    ensures { Appended out.old (number_bytes n) out.new }
{
    let mut rest = n;
    while TOP_BIT <= rest {
        out.byte((TOP_BIT + rest % TOP_BIT) as u8);
        rest /= TOP_BIT;
    }
    out.byte(rest as u8);
}
