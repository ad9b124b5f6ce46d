// A tally of rejections: a count for each host, and one for the steps that name none.
ghost use Rattle.std.specs.Prelude.{◌≡◌, unwrap_or};
ghost use Rattle.rejection_hosts.specs.RejectionHosts.{no_host};
ghost use Rattle.tallies.specs.TallyCounts.{counted_in, nothing_counted, CountRoom};

// Hosts are 0 to 15.
pub const HOSTS: usize = 16;

#[derive(Debug, Drop, PartialEq, Eq)]
pub struct Tally {
    pub hosts: [u64; HOSTS],
    pub none: u64,
}

// Nothing counted yet.
#[tactic(auto, unfolding(crate::specs::TallyCounts::nothing_counted))]
pub fn zero() -> Tally
    ensures { result ≡ nothing_counted }
{
    Tally {
        hosts: [0u64; HOSTS],
        none: 0,
    }
}

// Adds one to the count of a host, in place; to that of no host where there is none, or where the number is no host's.
pub fn count(tally: &mut Tally, host: Option<u64>)
    requires { CountRoom tally.old (unwrap_or host no_host) }
    ensures { tally.new ≡ counted_in tally.old (unwrap_or host no_host) }
{
    match host {
        Some(host) if host < HOSTS as u64 => tally.hosts[host as usize] += 1,
        _ => tally.none += 1,
    }
}
