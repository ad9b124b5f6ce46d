// The state that setup writes.
ghost use Rattle.std.specs.Prelude.{◌≡◌, ◌≤◌, ◌*◌, length, replicate};
ghost use Rattle.types.specs.Members.{size};
ghost use Rattle.model.specs.Layout.{shard_words};
ghost use Rattle.model.specs.Setup.{initial_shard, initial_state};
ghost use Rattle.setup.specs.Planned.{Planned};

use crate::plan::SHARD_PLAN;
use types::configuration::Members;
use types::layout::{ACTIVE, HEAD_WORDS, INSTALLED, MEMBERS, ORDERERS, REPLICA_WORDS, SHARD_WORDS};

// One shard's 2,112 words, where they are all 0: its head words, and an active replica for each member.
fn write_shard(words: &mut [u64], sequencer: u64, members: u64, orderer: u64)
    requires { (words.old ≡ replicate shard_words 0) × (size members ≤ 4) }
    ensures { words.new ≡ initial_shard sequencer members orderer }
{
    words[0] = sequencer;
    words[INSTALLED] = 1;
    words[MEMBERS] = members;
    words[ORDERERS] = orderer;
    let size = Members(members).size() as usize;
    for k in 0..size {
        words[HEAD_WORDS + k * REPLICA_WORDS] = ACTIVE;
    }
}

// The shards of a state whose words are all 0.
pub fn write_shards(state: &mut [u64], plan: &[u64], shards: usize)
    requires { (state.old ≡ replicate (shards * shard_words) 0) × Planned shards plan.now }
    ensures { state.new ≡ initial_state shards plan.now }
{
    for z in 0..shards {
        let from = z * SHARD_WORDS;
        let end = from + SHARD_WORDS;
        let at = SHARD_PLAN * z;
        write_shard(&mut state[from..end], plan[at], plan[at + 1], plan[at + 2]);
    }
}

// The whole state.
pub fn write_state(state: &mut [u64], plan: &[u64], shards: usize)
    requires { (length state.old ≡ shards * shard_words) × Planned shards plan.now }
    ensures { state.new ≡ initial_state shards plan.now }
{
    state.fill(0);
    write_shards(state, plan, shards);
}
