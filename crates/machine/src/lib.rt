// A step: the machine over a borrowed state of 64-bit words.

#![tactic(auto)]

ghost use Rattle.std.specs.Prelude.{◌≡◌, length};
ghost use Rattle.types.specs.Rejections.{answer_number};
ghost use Rattle.model.specs.Layout.{shards_of};
ghost use Rattle.model.specs.Steps.{rejection, after};
ghost use Rattle.lookup.specs.Ready.{Formed};
ghost use Rattle.machine.specs.Inside.{HasShards, ReadyStep};

use lookup::name::Named;
use types::kind::Kind;
use types::rejection::Rejection;
use types::step::Step;

// A step: its effect, or the rejection and the state as it was.
pub fn step(state: &mut [u64], s: Step) -> Result<(), Rejection>
    ensures value { answer_number result ≡ rejection state.old s }
    ensures state_after { state.new ≡ after state.old s }
{
    let shards = wellformed::shard_count(state.len())?;
    step_on(state, shards, s)
}

// The same on a state that has so many shards, which are counted once and go along. Kind, shard and index are tested before the state is scanned, the
// other numbers after it: on a well-formed state by the step's kind.
fn step_on(state: &mut [u64], shards: usize, s: Step) -> Result<(), Rejection>
    requires { HasShards state.old shards }
    ensures value { answer_number result ≡ rejection state.old s }
    ensures state_after { state.new ≡ after state.old s }
{
    let kind = step_numbers::kind_in_range(shards, s)?;
    if !wellformed::well_formed(state) {
        if !step_numbers::are_numbers(kind, shards, s.c, s.d) {
            return Err(Rejection::OutOfRange);
        }
        return Err(Rejection::NotWellFormed);
    }
    act(state, shards, kind, s)
}

// The same on a state that is known to be well-formed and is not scanned again.
pub fn step_inside(state: &mut [u64], shards: usize, s: Step) -> Result<(), Rejection>
    requires { Formed state.old × (shards ≡ shards_of (length state.old)) }
    ensures value { answer_number result ≡ rejection state.old s }
    ensures state_after { state.new ≡ after state.old s }
{
    let kind = step_numbers::kind_in_range(shards, s)?;
    act(state, shards, kind, s)
}

// The same, kind, shard and index having passed. This is the one match on the kind: each kind tests its own numbers, decides and acts. Of an add the
// orderer acts, of all others the host that the step names.
fn act(state: &mut [u64], shards: usize, kind: Kind, s: Step) -> Result<(), Rejection>
    requires { ReadyStep state.old shards kind s }
    ensures value { answer_number result ≡ rejection state.old s }
    ensures state_after { state.new ≡ after state.old s }
{
    let at = Named {
        z: s.shard() as usize,
        j: (s.b - 1) as usize,
    };
    match kind {
        Kind::Add => {
            let orderer = lookup::configuration_of(state, at).orderer;
            replica_steps::add::add(state, shards, at, orderer, s.c, s.d)
        }
        Kind::Adopt => adopt_steps::adopt(state, shards, at, s.c, s.d),
        Kind::Learn => learn_steps::learn::learn(state, shards, at, s.c, s.d),
        Kind::Wedge => wedge_steps::wedge::wedge(state, shards, at, s.c, s.d),
        Kind::Install => install_steps::install(state, shards, at, s.c, s.d),
        Kind::Inherit => inherit_steps::inherit::inherit(state, shards, at, s.c, s.d),
        Kind::CatchUp => inherit_steps::catch_up::catch_up(state, shards, at, s.c, s.d),
    }
}
