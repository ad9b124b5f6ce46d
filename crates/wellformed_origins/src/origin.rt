// The origin of a replica, its word 3: the host of the configuration before from which it began, plus 1.
// The state and the configuration are two parameters, since a struct's clauses would say `self.entry.state.now`, `self.entry.at.z`,
// `self.entry.at.j`.
ghost use Rattle.std.specs.Prelude.{◌≡◌, not, ◌≤◌, ◌<◌};
ghost use Rattle.model.specs.Tests.{all_below};
ghost use Rattle.model.specs.Replicas.{is_pending};
ghost use Rattle.model.specs.Layout.{place, replica_at, members};
ghost use Rattle.model.specs.Origins.{names_member, names_source, is_origin_of};
ghost use Rattle.wellformed_origins.specs.Before.{Within, HasBefore};

use lookup::name::Named;
use types::configuration::Members;
use types::layout::{HOSTS, MEMBERS, ORIGIN, PENDING, REPLICAS};

// Whether an origin x names a host of a member set.
#[tactic(auto, unfolding(model::specs::Origins::names_member))]
fn names_member(members: Members, x: u64) -> bool
    ensures { result ≡ names_member members.0 x }
{
    (1..=HOSTS).contains(&x) && members.has(x - 1)
}

// The member set of a configuration.
#[tactic(auto, unfolding(model::specs::Layout::members, model::specs::Layout::head_word, model::specs::Layout::head_place))]
fn members_of(state: &[u64], at: Named) -> Members
    requires { Within state.now at.z at.j }
    ensures { result.0 ≡ members state.now at.z at.j }
{
    Members(state[at.head() + MEMBERS + at.j])
}

// Whether an origin x names a source: a member of the configuration before whose replica is not pending.
fn names_source(state: &[u64], at: Named, x: u64) -> bool
    requires { HasBefore state.now at.z at.j × (1 ≤ at.j) }
    ensures { result ≡ names_source state.now at.z at.j x }
{
    let before = at.before();
    let members = members_of(state, before);
    if !names_member(members, x) {
        return false;
    }
    let number = members.below(x - 1) as usize;
    state[before.replica(number)] != PENDING
}

// Whether replica k of a configuration, a member's, has a proper origin.
#[tactic(auto, using(crate::proofs::OriginWords::origin_tests), unfolding(model::specs::Layout::place))]
fn is_origin_of(state: &[u64], at: Named, k: usize) -> bool
    requires { HasBefore state.now at.z at.j × (k < 4) }
    ensures { result ≡ is_origin_of state.now at.z at.j (replica_at state.now (place at.z at.j k)) }
{
    let place = at.replica(k);
    let x = state[place + ORIGIN];
    if at.j == 0 || state[place] == PENDING {
        x == 0
    } else {
        names_source(state, at, x)
    }
}

// Whether the members' replicas of a configuration, the first `count`, have proper origins.
fn each_origin(state: &[u64], at: Named, count: usize) -> bool
    requires { HasBefore state.now at.z at.j × (count ≤ 4) }
    ensures { result ≡ all_below count (λ k. is_origin_of state.now at.z at.j (replica_at state.now (place at.z at.j k))) }
{
    (0..count).all(|k| is_origin_of(state, at, k))
}

// Whether none of the four replicas of a configuration is pending.
#[tactic(auto, unfolding(model::specs::Layout::place))]
fn none_pending(state: &[u64], at: Named) -> bool
    requires { Within state.now at.z at.j }
    ensures { result ≡ all_below 4 (λ k. not (is_pending (replica_at state.now (place at.z at.j k)))) }
{
    (0..REPLICAS).all(|k| state[at.replica(k)] != PENDING)
}

// Whether the origins of the first `count` replicas of a configuration name hosts of a member set.
#[tactic(auto, unfolding(model::specs::Layout::place))]
fn all_named(state: &[u64], at: Named, count: usize, before: Members) -> bool
    requires { Within state.now at.z at.j × (count ≤ 4) }
    ensures { result ≡ all_below count (λ k. names_member before.0 (replica_at state.now (place at.z at.j k)).origin) }
{
    (0..count).all(|k| names_member(before, state[at.replica(k) + ORIGIN]))
}

// The same as `each_origin`. Mostly no replica of the configuration, and none of the one before, is pending: then only the members before matter.
pub fn all_origins(state: &[u64], at: Named, count: usize) -> bool
    requires { HasBefore state.now at.z at.j × (count ≤ 4) }
    ensures { result ≡ all_below count (λ k. is_origin_of state.now at.z at.j (replica_at state.now (place at.z at.j k))) }
{
    if 0 < at.j && none_pending(state, at.before()) && none_pending(state, at) {
        all_named(state, at, count, members_of(state, at.before()))
    } else {
        each_origin(state, at, count)
    }
}
