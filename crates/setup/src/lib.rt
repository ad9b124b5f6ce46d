// Setup: the first state of every run, from a plan.

#![tactic(auto)]

ghost use Rattle.std.specs.Prelude.{◌≡◌};
ghost use Rattle.types.specs.Rejections.{answer_number};
ghost use Rattle.model.specs.Setup.{setup_rejection, after_setup};

use types::rejection::Rejection;

pub mod initial;
mod plan;

// Setup: the whole state is written, or it stays as it was at a rejection (1 or 2).
pub fn setup(state: &mut [u64], plan: &[u64]) -> Result<(), Rejection>
    ensures value { answer_number result ≡ setup_rejection state.old plan.now }
    ensures state_after { state.new ≡ after_setup state.old plan.now }
{
    let shards = wellformed::shard_count(state.len())?;
    if !plan::is_plan(plan, shards) {
        return Err(Rejection::Plan);
    }
    initial::write_state(state, plan, shards);
    Ok(())
}
