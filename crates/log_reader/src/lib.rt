// Steps from bytes: a kind, then the numbers that it uses, one after the other. What is read is in `model`: `Numbers` and `Log`.

#![tactic(auto)]

ghost use Rattle.types.specs.Rejections.{answer_number};
ghost use Rattle.std.specs.Prelude.{◌≡◌, drop};
ghost use Rattle.model.specs.Log.{read_at, read_step};
ghost use Rattle.model.specs.Results.{reading_step, reading_next, read_rejection, step_read, bytes_read, next_read};
ghost use Rattle.log_reader.specs.ReadInParts.{Taken, kind_at};

use numbers::read::read_number;
use types::Reading;
use types::kind::Kind;
use types::rejection::Rejection;
use types::step::Step;

// The step at a position of a log, with the position after it, or nothing where the log ends there.
pub fn read_step(log: &[u8], at: usize) -> Result<Option<Reading>, Rejection>
    ensures result_value { answer_number result ≡ read_rejection (drop at log.now) }
    ensures result_value_2 { reading_step result ≡ step_read (drop at log.now) }
    ensures result_value_3 { reading_next result ≡ next_read log.now at }
    ensures value { result ≡ read_at log.now at }
{
    if log.len() <= at {
        return Ok(None);
    }
    let Some(first) = first_step(&log[at..])? else {
        return Ok(None);
    };
    Ok(Some(Reading {
        step: first.step,
        next: at + first.next,
    }))
}

// The step at the start of a log, with the count of its bytes, or nothing where the log is empty.
pub fn first_step(log: &[u8]) -> Result<Option<Reading>, Rejection>
    ensures result_value { answer_number result ≡ read_rejection log.now }
    ensures result_value_2 { reading_step result ≡ step_read log.now }
    ensures result_value_3 { reading_next result ≡ bytes_read log.now }
    ensures value { result ≡ read_step log.now }
{
    if log.is_empty() {
        return Ok(None);
    }
    let mut reader = Reader { log, at: 0 };
    let kind = reader.number()?;
    reader.after_kind(kind)
}

// A log, and the position of what is read next.
#[derive(Drop)]
struct Reader<'a> {
    log: &'a [u8],
    at: usize,
}

impl<'a> Reader<'a> {
    // Reads a number.
    #[inline(always)]
    fn number(&mut self) -> Result<u64, Rejection>
        ensures { Taken self.old result self.new }
    {
        let number = read_number(self.log, self.at)?;
        self.at += number.bytes;
        Ok(number.value)
    }

    // Reads the numbers of a step whose kind was read: the step, with the position after it.
    fn after_kind(&mut self, kind: u64) -> Result<Option<Reading>, Rejection>
        ensures { result ≡ kind_at self.old.log.now self.old.at kind }
    {
        Kind::try_from(kind)?;
        let a = self.number()?;
        let b = self.number()?;
        let c = self.number()?;
        let d = if Kind::fourths(kind) == 0 {
            0
        } else {
            self.number()?
        };
        Ok(Some(Reading {
            step: Step { kind, a, b, c, d },
            next: self.at,
        }))
    }
}
