// A tally in seventeen words of an output: the counts of hosts 0 to 15, and that of no host.
ghost use Rattle.std.specs.Prelude.{◌≡◌, ◌≤◌, length};
ghost use Rattle.std.proofs.lemmas.List.Edits.{sets};
ghost use Rattle.word_outputs.specs.TallyWords.{tally_words, tally_in};

use tallies::tally::{HOSTS, Tally};

// The tally that an output holds.
pub fn tally_in(out: &[u64]) -> Tally
    requires { 17 ≤ length out.now }
    ensures { result ≡ tally_in out.now }
{
    let mut hosts = [0u64; HOSTS];
    hosts.copy_from_slice(&out[..HOSTS]);
    Tally {
        hosts,
        none: out[HOSTS],
    }
}

// Its words at the start of an output.
pub fn put_tally(out: &mut [u64], tally: Tally)
    requires { (17 ≤ length out.old) × (length tally.hosts ≡ 16) }
    ensures { out.new ≡ sets out.old 0 (tally_words tally) }
{
    out[..HOSTS].copy_from_slice(&tally.hosts);
    out[HOSTS] = tally.none;
}
