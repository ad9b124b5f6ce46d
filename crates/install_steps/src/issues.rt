// Issues told by the shard that they are for.
ghost use Rattle.std.specs.Prelude.{◌≡◌};
ghost use Rattle.model.specs.Entries.{is_issue_for};

// Whether an entry is an issue for shard z.
#[tactic(auto, unfolding(model::specs::Entries::is_issue_for))]
pub fn is_issue_for(z: usize, e: u64) -> bool
    ensures { result ≡ is_issue_for z e }
{
    issue_words::is_issue(e) && issue_words::issue_shard(e) == z as u64
}
