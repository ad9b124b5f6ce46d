// Whether a shard's newest configuration is wedged.
ghost use Rattle.std.specs.Prelude.{◌≡◌};
ghost use Rattle.model.specs.Install.{is_wedged, is_newest_wedged};
ghost use Rattle.lookup.specs.Ready.{Ready};

use lookup::name::Named;
use types::layout::{IMMUTABLE, INSTALLED, REPLICAS, SHARD_WORDS};

// Whether a replica of a configuration is immutable. All its four places are looked at: those of no member have no mode.
fn is_wedged(state: &[u64], at: Named) -> bool
    requires { Ready state.now at.z at.j }
    ensures { result ≡ is_wedged state.now at.z at.j }
{
    (0..REPLICAS).any(|k| state[at.replica(k)] == IMMUTABLE)
}

// Whether a replica of the newest configuration of shard z is immutable.
pub fn is_newest_wedged(state: &[u64], z: usize) -> bool
    requires { Ready state.now z 0 }
    ensures { result ≡ is_newest_wedged state.now z }
{
    let installed = state[z * SHARD_WORDS + INSTALLED] as usize;
    is_wedged(
        state,
        Named {
            z,
            j: installed - 1,
        },
    )
}
