// The plan of a setup: three words for each shard, which are its sequencer, its member set and its orderer.
ghost use Rattle.std.specs.Prelude.{◌≡◌, ◌*◌, ◌<◌, ◌≤◌, length};
ghost use Rattle.model.specs.Tests.{all_below};
ghost use Rattle.model.specs.Setup.{is_planned_shard, is_plan};

use wellformed::sequencer::all_differ;

// How many words a shard has in a plan.
pub const SHARD_PLAN: usize = 3;

// Whether the three words of shard z are proper.
#[tactic(auto, using(crate::proofs::InitialPlan::planned_words))]
fn is_planned_shard(plan: &[u64], shards: usize, z: usize) -> bool
    requires { (z < shards) × (length plan.now ≡ 3 * shards) }
    ensures { result ≡ is_planned_shard shards plan.now z }
{
    let at = SHARD_PLAN * z;
    wellformed::shard::is_sequencer(shards, z, plan[at])
        && wellformed_entries::members::is_configuration(plan[at + 1], plan[at + 2])
}

// Whether the words of all shards are proper.
fn all_planned(plan: &[u64], shards: usize) -> bool
    requires { length plan.now ≡ 3 * shards }
    ensures { result ≡ all_below shards (is_planned_shard shards plan.now) }
{
    (0..shards).all(|z| is_planned_shard(plan, shards, z))
}

// Whether a plan is one for `shards` shards.
#[tactic(auto, using(crate::proofs::InitialPlan::sequencers_differ), unfolding(model::specs::Setup::is_plan))]
pub fn is_plan(plan: &[u64], shards: usize) -> bool
    requires { shards ≤ 8 }
    ensures { result ≡ is_plan shards plan.now }
{
    plan.len() == SHARD_PLAN * shards
        && all_planned(plan, shards)
        && all_differ(plan, SHARD_PLAN, shards)
}
