// The fields of an issue's word. What they mean, and which words are proper entries, is in `model`: `Entries`.

#![tactic(auto)]

ghost use Rattle.std.specs.Prelude.{◌≡◌};
ghost use Rattle.model.specs.Entries.{is_issue, issue_index, issue_shard, issue_orderer, issue_members};

// What an issue's word is more than the sum of its fields, and what each field is multiplied with: powers of two.
const ISSUE: u64 = 4294967296;

pub const INDEX: u64 = 16777216;

const SHARD: u64 = 1048576;

const ORDERER: u64 = 65536;

// The lowest bit of the shard: from it on a word has the mark of an issue, the index and the shard.
pub const SHARD_BIT: u64 = 20;

// Whether a word is an issue's, of whatever content.
#[tactic(auto, unfolding(model::specs::Entries::is_issue))]
pub fn is_issue(e: u64) -> bool
    ensures { result ≡ is_issue e }
{
    e / ISSUE == 1
}

// The index that an issue is for.
#[tactic(auto, unfolding(model::specs::Entries::issue_index))]
pub fn issue_index(e: u64) -> u64
    ensures { result ≡ issue_index e }
{
    e / INDEX % 256
}

// The shard that an issue is for.
#[tactic(auto, unfolding(model::specs::Entries::issue_shard))]
pub fn issue_shard(e: u64) -> u64
    ensures { result ≡ issue_shard e }
{
    e / SHARD % 16
}

// The orderer that an issue appoints.
#[tactic(auto, unfolding(model::specs::Entries::issue_orderer))]
pub fn issue_orderer(e: u64) -> u64
    ensures { result ≡ issue_orderer e }
{
    e / ORDERER % 16
}

// The member set that an issue appoints.
#[tactic(auto, unfolding(model::specs::Entries::issue_members))]
pub fn issue_members(e: u64) -> u64
    ensures { result ≡ issue_members e }
{
    e % ORDERER
}
