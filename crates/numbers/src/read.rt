// Numbers from bytes: seven bits a byte, lowest first, the top bit on all bytes but the last, at most five bytes.
ghost use Rattle.std.specs.Prelude.{◌≡◌, false, cond, ◌<◌, eqb, drop};
ghost use Rattle.types.specs.declared.rejection.Rejection.TheVariants.{NumberForm};
ghost use Rattle.model.specs.Numbers.{read_groups, read_number, valued, with_lower};

use crate::{MOST_BYTES, TOP_BIT};
use types::Number;
use types::rejection::Rejection;

// The number at a position of a log. Most numbers have one byte.
pub fn read_number(log: &[u8], at: usize) -> Result<Number, Rejection>
    ensures { result ≡ read_number (drop at log.now) }
{
    let Some(&byte) = log.get(at) else {
        return Err(Rejection::LogEnds);
    };
    let first = u64::from(byte);
    if first < TOP_BIT {
        return Ok(Number {
            value: first,
            bytes: 1,
        });
    }
    read_more(&log[at..], first % TOP_BIT)
}

// The number of several bytes at the start of a log, whose first one has the seven bits `low`: v is the value of n bytes, and the next bit weighs w.
fn read_more(log: &[u8], low: u64) -> Result<Number, Rejection>
    requires { low < 128 }
    ensures { result ≡ with_lower low (read_groups 4 false (drop 1 log.now)) }
{
    let mut v = low;
    let mut w = TOP_BIT;
    for n in 1..MOST_BYTES {
        let Some(&byte) = log.get(n) else {
            return Err(Rejection::LogEnds);
        };
        let b = u64::from(byte);
        v += w * (b % TOP_BIT);
        if b < TOP_BIT {
            return ended(v, b, n + 1);
        }
        w *= TOP_BIT;
    }
    Err(Rejection::NumberForm)
}

// A number of several bytes, by its last byte.
fn ended(value: u64, last: u64, bytes: usize) -> Result<Number, Rejection>
    ensures { result ≡ cond (eqb last 0) (Err NumberForm) (valued value bytes) }
{
    if last == 0 {
        return Err(Rejection::NumberForm);
    }
    Ok(Number { value, bytes })
}
