// The next configuration of a shard: its head words, and its members' replicas pending.
ghost use Rattle.std.specs.Prelude.{◌≡◌};
ghost use Rattle.model.specs.Install.{install_next};
ghost use Rattle.install_steps.specs.Next.{ReadyNext, Unused, pending_from};

use lookup::name::Named;
use types::configuration::Members;
use types::layout::{INSTALLED, MEMBERS, ORDERERS, PENDING, REPLICA_WORDS, SHARD_WORDS};

// The `size` replicas from `first` on become pending. They were unused, so all but their modes are right.
fn make_pending(state: &mut [u64], first: usize, size: usize)
    requires { Unused state.old first size }
    ensures { state.new ≡ pending_from state.old first size }
{
    for k in 0..size {
        state[first + k * REPLICA_WORDS] = PENDING;
    }
}

// Installs the next configuration of shard z.
pub fn install_next(state: &mut [u64], z: usize, members: u64, orderer: u64)
    requires { ReadyNext state.old z members orderer }
    ensures { state.new ≡ install_next state.old z members orderer }
{
    let installed = state[z * SHARD_WORDS + INSTALLED];
    let next = Named {
        z,
        j: installed as usize,
    };
    let head = next.head();
    state[head + MEMBERS + next.j] = members;
    state[head + ORDERERS + next.j] = orderer;
    state[head + INSTALLED] = installed + 1;
    make_pending(state, next.first(), Members(members).size() as usize);
}
