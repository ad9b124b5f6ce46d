// The 64 words of a replica.
ghost use Rattle.std.specs.Prelude.{◌≡◌, ◌+◌, ◌≤◌, not, ◌&&◌, ◌||◌, eqb, leb, length, take, drop};
ghost use Rattle.types.specs.ReplicaPlace.{part_words};
ghost use Rattle.wellformed_entries.specs.Zeros.{zeros};
ghost use Rattle.wellformed_replicas.specs.Shapes.{are_first_of, is_known, is_shape};

use alike_words::are_alike;
use types::layout::{ENTRIES, IMMUTABLE, LENGTH, MOST_ENTRIES, PENDING, RESERVED, STABLE};
use wellformed_entries::entry::all_takes;
use wellformed_entries::zero::all_zero;

// Whether words are the first of others. Histories that differ mostly differ in the last place of the shorter one, which is looked at first.
pub fn begins(words: &[u64], others: &[u64]) -> bool
    ensures { result ≡ are_first_of words.now others.now }
{
    let Some(others) = others.get(..words.len()) else {
        return false;
    };
    words.last() == others.last() && are_alike(words, others)
}

// Whether a history need not be tested entry by entry: it is the first entries of one that was. Before one was, it has to have takes alone.
#[tactic(auto, unfolding(crate::specs::Shapes::is_known))]
pub fn is_known(words: &[u64], known: &[u64]) -> bool
    ensures { result ≡ is_known words.now known.now }
{
    if known.is_empty() {
        all_takes(words)
    } else {
        begins(words, known)
    }
}

// Whether a replica of configuration j that has this mode and length may be pending, or is not.
pub fn may_wait(mode: u64, len: u64, j: usize) -> bool
    ensures { result ≡ (not (eqb mode 1) || (eqb len 0 && leb 1 j)) }
{
    mode != PENDING || (len == 0 && 1 <= j)
}

// Whether the reserved words and those past the entries are 0. A replica without entries has nothing but 0 from the reserved words on.
#[tactic(auto, using(crate::proofs::Shapes::no_entries))]
fn is_rest_zero(words: &[u64], len: usize) -> bool
    requires whole { length words.now ≡ part_words }
    requires few { len ≤ 56 }
    ensures { result ≡ (zeros (take 4 (drop 4 words.now)) && zeros (drop (8 + len) words.now)) }
{
    if len == 0 {
        all_zero(&words[RESERVED..])
    } else {
        all_zero(&words[RESERVED..ENTRIES]) && all_zero(&words[ENTRIES + len..])
    }
}

// Whether the words are those of a member's replica in configuration j, but for its entries.
#[tactic(auto, unfolding(crate::specs::Shapes::is_shape))]
pub fn is_shape(words: &[u64], j: usize) -> bool
    requires { length words.now ≡ part_words }
    ensures { result ≡ is_shape j words.now }
{
    let mode = words[0];
    let len = words[LENGTH];
    (PENDING..=IMMUTABLE).contains(&mode)
        && len <= MOST_ENTRIES
        && words[STABLE] <= len
        && may_wait(mode, len, j)
        && is_rest_zero(words, len as usize)
}
