// Where a replica got its history: the hosts from which it and its sources began, back to the first configuration.
ghost use Rattle.std.specs.Prelude.{◌≡◌, []};
ghost use Rattle.types.specs.Rejections.{answer_number};
ghost use Rattle.histories.specs.Traces.{sources_of, trace_rejection, traced, Started};

use crate::named::find_named;
use arrayvec::ArrayVec;
use lookup::name::Named;
use types::layout::{CONFIGURATIONS, ORIGIN, PENDING};
use types::rejection::Rejection;

// A trace has at most so many hosts: one for each configuration after the first.
pub const MOST_HOSTS: usize = CONFIGURATIONS - 1;

// The trace of a host's replica, put into a vector in place of what it holds: hosts, nearest first, none where the replica is pending; or the
// rejection (1, 7, 9, 10 or 11), which leaves the vector as it was. It is lent: given back by value, it is copied so often that a call from C needs
// more stack than the header tells.
pub fn trace(
    state: &[u64],
    shard: u64,
    index: u64,
    host: u64,
    hosts: &mut ArrayVec<u64, MOST_HOSTS>,
) -> Result<(), Rejection>
    ensures number { answer_number result ≡ trace_rejection state.now shard index host }
    ensures hosts_after { hosts.new.items ≡ traced state.now shard index host hosts.old.items }
{
    let place = find_named(state, shard, index, host)?;
    hosts.clear();
    if state[place] != PENDING {
        let at = Named {
            z: shard as usize,
            j: (index - 1) as usize,
        };
        put_sources(state, at, host, hosts);
    }
    Ok(())
}

// The sources of a replica that is not pending, put into an empty vector host by host.
fn put_sources(state: &[u64], at: Named, host: u64, hosts: &mut ArrayVec<u64, MOST_HOSTS>)
    requires started { Started state.now at.z at.j host }
    requires none { hosts.old.items ≡ [] }
    ensures { hosts.new.items ≡ sources_of state.now at.z at.j host }
{
    let mut g = host;
    for j in (1..=at.j).rev() {
        let place = lookup::configuration_of(state, Named { j, ..at }).replica(g);
        g = state[place + ORIGIN] - 1;
        hosts.push(g);
    }
}
