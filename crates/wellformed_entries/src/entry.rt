// Entries of a history, takes and issues: one word, and all words of a list.
ghost use Rattle.std.specs.Prelude.{◌≡◌};
ghost use Rattle.model.specs.Tests.{all_of};
ghost use Rattle.model.specs.Entries.{is_take, is_entry, is_proper_issue};

use crate::members;

// Takes are the numbers from 1 to this one.
const LARGEST_TAKE: u64 = 4294967295;

// The least and the largest index, with the mark of an issue before it, 256.
const LEAST_INDEX: u64 = 258;

const LARGEST_INDEX: u64 = 264;

// Whether a word is a take.
#[tactic(auto, unfolding(model::specs::Entries::is_take))]
pub fn is_take(e: u64) -> bool
    ensures { result ≡ is_take e }
{
    (1..=LARGEST_TAKE).contains(&e)
}

// Whether all words are takes: the words and the numbers before them are joined, without an early exit, and tested once. The number before 0 wraps.
pub fn all_takes(words: &[u64]) -> bool
    ensures { result ≡ all_of is_take words.now }
{
    let joined = words.iter().fold(0, |all, e| all | *e | e.wrapping_sub(1));
    joined <= LARGEST_TAKE
}

// Whether a word is a proper issue, where there are `shards` shards. Its mark and its index are one number.
#[tactic(auto, using(crate::proofs::Marks::proper_by_mark))]
pub fn is_proper_issue(shards: usize, e: u64) -> bool
    ensures { result ≡ is_proper_issue shards e }
{
    (LEAST_INDEX..=LARGEST_INDEX).contains(&(e / issue_words::INDEX))
        && issue_words::issue_shard(e) < shards as u64
        && members::is_configuration(issue_words::issue_members(e), issue_words::issue_orderer(e))
}

// Whether a word is a proper entry. A take is told by one comparison, before issues are looked at.
#[tactic(auto, unfolding(model::specs::Entries::is_entry))]
pub fn is_entry(shards: usize, e: u64) -> bool
    ensures { result ≡ is_entry shards e }
{
    is_take(e) || is_proper_issue(shards, e)
}

// Whether all words are proper entries, tested one by one.
fn are_entries(words: &[u64], shards: usize) -> bool
    ensures { result ≡ all_of (is_entry shards) words.now }
{
    words.iter().all(|e| is_entry(shards, *e))
}

// Whether all words are proper entries: four a turn, each with its own jump on takes, which is foretold better, and then the rest.
pub fn each_entry(words: &[u64], shards: usize) -> bool
    ensures { result ≡ all_of (is_entry shards) words.now }
{
    let (fours, rest) = words.as_chunks::<4>();
    fours.iter().all(|four| are_entries(four, shards)) && are_entries(rest, shards)
}
