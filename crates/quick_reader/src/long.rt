// Adds whose entry may have several bytes, as the words of issues and of larger takes have. No branch depends on how many: a byte below 128 takes the
// bytes after it out of the number.
ghost use Rattle.std.specs.Prelude.{◌≡◌, true, cond, suc, ◌+◌, ◌*◌, ◌%◌, ◌^◌, ◌≤◌, ◌<◌, ltb, length, get_or, is_some, IfSome};
ghost use Rattle.quick_reader.specs.Long.{last_byte, entry_bytes, is_long_add_at, long_entry, long_length, long_step};

use crate::{TOP_BIT, has_window};
use types::Reading;
use types::step::Step;

// The number of the kind add.
const ADD: u8 = 1;

// The number that begins with a byte, where `rest` is the number that the bytes after it would be.
fn joined(b: u8, rest: u64) -> u64
    requires { rest < 2 ^ 28 }
    ensures { result ≡ cond (ltb b 128) b (b % 128 + 128 * rest) }
{
    u64::from(b % TOP_BIT) + u64::from(b / TOP_BIT * TOP_BIT) * rest
}

// How many bytes a number has that begins with a byte, where the bytes after it would be `rest`.
fn counted(b: u8, rest: usize) -> usize
    requires { rest ≤ 4 }
    ensures { result ≡ cond (ltb b 128) 1 (suc rest) }
{
    1 + usize::from(b / TOP_BIT) * rest
}

// The last byte of a number that begins with a byte, where `rest` is the last of the bytes after it.
fn last(b: u8, rest: u8) -> u8
    ensures { result ≡ cond (ltb b 128) b rest }
{
    if b < TOP_BIT { b } else { rest }
}

// The last byte of the entry at a position.
fn last_byte(log: &[u8], at: usize) -> u8
    requires { (at + 8 ≤ length log.now) × (get_or log.now (at + 7) 0 < 128) }
    ensures { result ≡ last_byte (entry_bytes log.now at) }
{
    let d = last(log[at + 6], log[at + 7]);
    let c = last(log[at + 5], d);
    let b = last(log[at + 4], c);
    last(log[at + 3], b)
}

// A position of a log where a long add is. It shares no trait with `Short`: all that one could provide is the sum in `reading`.
#[derive(Drop)]
pub struct LongAdd<'a> {
    log: &'a [u8],
    at: usize,
    ghost is_long_add: { is_long_add_at log.now at ≡ true },
}

impl<'a> LongAdd<'a> {
    // The long add at a position: eight bytes are left there, and begin with an add whose shard and index have one byte each, and whose entry has
    // five at most, the last of them not 0.
    #[inline(always)]
    #[tactic(auto, using(crate::proofs::LongAdds::long_tests))]
    pub fn at(log: &'a [u8], at: usize) -> Option<LongAdd<'a>>
        ensures found { is_some result ≡ is_long_add_at log.now at }
        ensures place { IfSome result (λ s. (s.log.now ≡ log.now) × (s.at ≡ at)) }
    {
        if has_window(log, at)
            && log[at] == ADD
            && (log[at + 1] | log[at + 2] | log[at + 7]) < TOP_BIT
            && last_byte(log, at) != 0
        {
            return Some(LongAdd { log, at });
        }
        None
    }

    // Its entry.
    #[inline(always)]
    #[tactic(auto, using(crate::proofs::LongAdds::long_fits, crate::proofs::LongAdds::long_last))]
    pub fn entry(&self) -> u64
        ensures { result ≡ long_entry self.now.log.now self.now.at }
    {
        let d = joined(self.log[self.at + 6], u64::from(self.log[self.at + 7]));
        let c = joined(self.log[self.at + 5], d);
        let b = joined(self.log[self.at + 4], c);
        joined(self.log[self.at + 3], b)
    }

    // How many bytes it has: three of kind, shard and index, and those of the entry.
    #[inline(always)]
    #[tactic(auto, using(crate::proofs::LongAdds::long_fits))]
    pub fn byte_count(&self) -> usize
        ensures { result ≡ long_length self.now.log.now self.now.at }
    {
        let d = counted(self.log[self.at + 6], 1);
        let c = counted(self.log[self.at + 5], d);
        let b = counted(self.log[self.at + 4], c);
        3 + counted(self.log[self.at + 3], b)
    }

    // The add itself.
    #[inline(always)]
    #[tactic(auto, using(crate::proofs::LongAdds::long_fits), unfolding(crate::specs::Long::long_step, model::specs::Log::step_of))]
    pub fn step(&self) -> Step
        ensures { result ≡ long_step self.now.log.now self.now.at }
    {
        Step {
            kind: u64::from(ADD),
            a: u64::from(self.log[self.at + 1]),
            b: u64::from(self.log[self.at + 2]),
            c: self.entry(),
            d: 0,
        }
    }

    // The add, with the position after it.
    #[inline(always)]
    #[tactic(auto, using(crate::proofs::LongAdds::long_fits, crate::proofs::LongAdds::long_length_most))]
    pub fn reading(&self) -> Reading
        ensures step { result.step ≡ long_step self.now.log.now self.now.at }
        ensures next { result.next ≡ self.now.at + long_length self.now.log.now self.now.at }
    {
        Reading {
            step: self.step(),
            next: self.at + self.byte_count(),
        }
    }
}
