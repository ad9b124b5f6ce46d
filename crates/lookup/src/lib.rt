// Looking into a well-formed state: configurations by value, and where a host's replica is. No entry point: callers have tested the state.
// A struct that holds the state would ask every contract for a clause that its words are the same, so the state goes beside what is named.

#![tactic(auto)]

ghost use Rattle.std.specs.Prelude.{◌≡◌, ◌+◌, IfOk};
ghost use Rattle.model.specs.Layout.{is_installed};
ghost use Rattle.model.specs.Configuration.{configuration};
ghost use Rattle.model.specs.Add.{orderer_place};
ghost use Rattle.lookup.specs.Ready.{Ready, ReadyHost, ReadyInstalled, Placed};
ghost use Rattle.lookup.specs.FoundReplicas.{found_of};

use crate::name::Named;
use types::configuration::Configuration;
use types::layout::{INSTALLED, MEMBERS, ORDERERS};
use types::rejection::Rejection;

pub mod name;

// Whether a configuration is installed.
#[tactic(auto, unfolding(model::specs::Layout::is_installed, model::specs::Layout::installed, model::specs::Layout::head_word, model::specs::Layout::head_place))]
pub fn is_installed(state: &[u64], at: Named) -> bool
    requires { Ready state.now at.z at.j }
    ensures { result ≡ is_installed state.now at.z at.j }
{
    (at.j as u64) < state[at.head() + INSTALLED]
}

// A configuration by value.
pub fn configuration_of(state: &[u64], at: Named) -> Configuration
    requires { Ready state.now at.z at.j }
    ensures { result ≡ configuration state.now at.z at.j }
{
    let head = at.head();
    Configuration {
        place: at.first(),
        members: state[head + MEMBERS + at.j],
        orderer: state[head + ORDERERS + at.j],
    }
}

// The place of a host's replica in a configuration, or the rejection (10 or 11).
pub fn find(state: &[u64], at: Named, host: u64) -> Result<usize, Rejection>
    requires { ReadyHost state.now at.z at.j host }
    ensures value { result ≡ found_of state.now at.z at.j host }
    ensures placed { IfOk result (λ place. Placed state.now place) }
{
    if !is_installed(state, at) {
        return Err(Rejection::NotInstalled);
    }
    let c = configuration_of(state, at);
    if !c.has(host) {
        return Err(Rejection::NotMember);
    }
    Ok(c.replica(host))
}

// The place of the orderer's replica in an installed configuration.
pub fn orderer_place(state: &[u64], at: Named) -> usize
    requires { ReadyInstalled state.now at.z at.j }
    ensures { (result ≡ orderer_place state.now at.z at.j) × Placed state.now result }
{
    let c = configuration_of(state, at);
    c.replica(c.orderer)
}
