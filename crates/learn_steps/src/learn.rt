// Kind 3, learn persistence: a longer prefix of a replica's history is stable.
ghost use Rattle.std.specs.Prelude.{◌≡◌, Ok};
ghost use Rattle.types.specs.Rejections.{answer_number};
ghost use Rattle.lookup.specs.KindContracts.{ReadyKind, kind_answer, kind_after};
ghost use Rattle.learn_steps.specs.AlikeWords.{Compared, all_alike_at};

use alike_words::agreeing;
use lookup::name::Named;
use step_numbers::acting::acting_replica;
use types::kind::Kind;
use types::layout::{ACTIVE, ENTRIES, LENGTH, REPLICA_WORDS, STABLE};
use types::rejection::Rejection;

// Whether the `size` replicas from `first` on have n entries at least, and the first n like those of the replica at `own`. Entries are compared one
// by one from the first that `agreeing` does not tell of, and both loops are left by the label at the first that differs.
fn all_alike(state: &[u64], first: usize, size: usize, n: usize, own: usize) -> bool
    requires { Compared state.now first size n own }
    ensures { result ≡ all_alike_at state.now first size n own }
{
    let own_entries = own + ENTRIES;
    'replicas: {
        for k in 0..size {
            let q = first + k * REPLICA_WORDS;
            if state[q + LENGTH] < n as u64 {
                break 'replicas false;
            }
            let entries = q + ENTRIES;
            let agreed = agreeing(
                &state[entries..entries + n],
                &state[own_entries..own_entries + n],
            );
            for p in agreed..n {
                if state[entries + p] != state[own_entries + p] {
                    break 'replicas false;
                }
            }
        }
        true
    }
}

// Learns that n entries of a host's history are stable: the new stable length, or the rejection (7, 10, 11, 12, 18, 19) and the state as it was.
pub fn learn(
    state: &mut [u64],
    shards: usize,
    at: Named,
    host: u64,
    n: u64,
) -> Result<(), Rejection>
    requires { ReadyKind state.old shards at.z at.j }
    ensures value { answer_number result ≡ kind_answer (Ok Kind.Learn) state.old at.z at.j host n }
    ensures state_after { state.new ≡ kind_after (Ok Kind.Learn) state.old at.z at.j host n }
{
    let p = acting_replica(state, Kind::Learn, shards, at, host, n)?;
    if state[p] != ACTIVE {
        return Err(Rejection::WrongMode);
    }
    if n <= state[p + STABLE] {
        return Err(Rejection::NotLonger);
    }
    let c = lookup::configuration_of(state, at);
    if !all_alike(state, c.place, c.size() as usize, n as usize, p) {
        return Err(Rejection::NotAlike);
    }
    state[p + STABLE] = n;
    Ok(())
}
