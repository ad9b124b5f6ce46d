// Steps whose numbers have one byte each, as most have. They are told with one test of four bytes, and read with no branch on the kind, which is hard
// to foretell.
ghost use Rattle.std.specs.Prelude.{◌≡◌, ◌+◌, true, is_some, IfSome, get_or};
ghost use Rattle.quick_reader.specs.Short.{is_short_at, short_fourth, short_length, short_step};
ghost use Rattle.types.specs.Rules.{fourth_numbers};

use crate::{TOP_BIT, has_window};
use types::Reading;
use types::kind::Kind;
use types::step::Step;

// The largest number of a kind.
const LAST_KIND: u8 = 7;

// A position of a log where a short step is.
#[derive(Drop)]
pub struct Short<'a> {
    log: &'a [u8],
    at: usize,
    ghost is_short: { is_short_at log.now at ≡ true },
}

impl<'a> Short<'a> {
    // The short step at a position: eight bytes are left there, and begin with a step of a known kind whose numbers have one byte each. Of a step of
    // three numbers, the byte after it is tested too: it may be the next step's kind.
    #[inline(always)]
    #[tactic(auto, using(crate::proofs::ShortSteps::short_tests))]
    pub fn at(log: &'a [u8], at: usize) -> Option<Short<'a>>
        ensures found { is_some result ≡ is_short_at log.now at }
        ensures place { IfSome result (λ s. (s.log.now ≡ log.now) × (s.at ≡ at)) }
    {
        if has_window(log, at)
            && matches!(log[at], 1..=LAST_KIND)
            && (log[at + 1] | log[at + 2] | log[at + 3] | log[at + 4]) < TOP_BIT
        {
            return Some(Short { log, at });
        }
        None
    }

    // How many numbers it has after its third: 0 or 1.
    #[inline(always)]
    #[tactic(auto, using(crate::proofs::ShortSteps::short_fits))]
    fn fourths(&self) -> u64
        ensures { result ≡ fourth_numbers (get_or self.now.log.now self.now.at 0) }
    {
        Kind::fourths(u64::from(self.log[self.at]))
    }

    // Its fourth number, 0 where its kind uses three.
    #[inline(always)]
    #[tactic(auto, using(crate::proofs::ShortSteps::short_fits), unfolding(crate::specs::Short::short_fourth))]
    pub fn fourth(&self) -> u64
        ensures { result ≡ short_fourth self.now.log.now self.now.at }
    {
        u64::from(self.log[self.at + 4]) * self.fourths()
    }

    // How many bytes it has: four of its kind and three numbers, and one where it has a fourth.
    #[inline(always)]
    #[tactic(auto, using(crate::proofs::ShortSteps::short_fits, types::proofs::KindRules::fourth_most), unfolding(crate::specs::Short::short_length))]
    pub fn byte_count(&self) -> usize
        ensures { result ≡ short_length self.now.log.now self.now.at }
    {
        4 + self.fourths() as usize
    }

    // The step itself.
    #[inline(always)]
    #[tactic(auto, using(crate::proofs::ShortSteps::short_fits), unfolding(crate::specs::Short::short_step, model::specs::Log::step_of))]
    pub fn step(&self) -> Step
        ensures { result ≡ short_step self.now.log.now self.now.at }
    {
        Step {
            kind: u64::from(self.log[self.at]),
            a: u64::from(self.log[self.at + 1]),
            b: u64::from(self.log[self.at + 2]),
            c: u64::from(self.log[self.at + 3]),
            d: self.fourth(),
        }
    }

    // The step, with the position after it.
    #[inline(always)]
    #[tactic(auto, using(crate::proofs::ShortSteps::short_fits, crate::proofs::ShortSteps::short_length_most))]
    pub fn reading(&self) -> Reading
        ensures step { result.step ≡ short_step self.now.log.now self.now.at }
        ensures next { result.next ≡ self.now.at + short_length self.now.log.now self.now.at }
    {
        Reading {
            step: self.step(),
            next: self.at + self.byte_count(),
        }
    }
}
