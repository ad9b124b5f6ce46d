// A state's length, its setup, and one step on it.
ghost use Rattle.std.specs.Prelude.{◌≡◌, [], ◌∷◌};
ghost use Rattle.model.specs.Setup.{setup_rejection, after_setup};
ghost use Rattle.model.specs.Log.{step_of};
ghost use Rattle.model.specs.Steps.{rejection, after};
ghost use Rattle.word_outputs.specs.State.{state_words};

use types::layout::SHARD_WORDS;
use types::rejection::number_of;
use types::step::Step;

// The length of a state of so many zones, 0 where no state has so many.
#[tactic(auto, unfolding(word_outputs::specs::State::state_words))]
#[unsafe(no_mangle)]
pub extern "C" fn penkwadar_state_words(zones: u64) -> u64
    ensures { result ≡ state_words zones }
{
    match zones {
        2..=8 => SHARD_WORDS as u64 * zones,
        _ => 0,
    }
}

// Setup: 0 and the whole state written, or the rejection and the state as it was.
#[unsafe(no_mangle)]
pub extern "C" fn penkwadar_setup(state: &mut [u64], plan: &[u64]) -> u64
    ensures value { result ≡ setup_rejection state.old plan.now }
    ensures state_after { state.new ≡ after_setup state.old plan.now }
{
    number_of(&setup::setup(state, plan))
}

// A step: 0 and its effect, or the rejection and the state as it was.
#[unsafe(no_mangle)]
pub extern "C" fn penkwadar_step(
    state: &mut [u64],
    kind: u64,
    a: u64,
    b: u64,
    c: u64,
    d: u64,
) -> u64
    ensures value { result ≡ rejection state.old (step_of kind (a ∷ b ∷ c ∷ d ∷ [])) }
    ensures state_after { state.new ≡ after state.old (step_of kind (a ∷ b ∷ c ∷ d ∷ [])) }
{
    number_of(&machine::step(state, Step { kind, a, b, c, d }))
}
