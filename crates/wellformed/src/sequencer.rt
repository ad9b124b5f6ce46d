// Sequencers: no two shards have the same. They stand at equal distances, in a state as in a plan.
ghost use Rattle.std.specs.Prelude.{◌≡◌, not, ◌*◌, eqb, get_or};
ghost use Rattle.model.specs.Tests.{all_below};
ghost use Rattle.model.specs.WellFormed.{all_differ};
ghost use Rattle.wellformed.specs.SpacedWords.{Spaced};

// Whether the words at a distance from each other, below the a-th, are others than q.
fn differs_below(words: &[u64], distance: usize, a: usize, q: u64) -> bool
    requires { Spaced words.now distance a }
    ensures { result ≡ all_below a (λ b. not (eqb (get_or words.now (b * distance) 0) q)) }
{
    (0..a).all(|b| words[b * distance] != q)
}

// Whether no two of so many words at a distance from each other are the same.
pub fn all_differ(words: &[u64], distance: usize, shards: usize) -> bool
    requires { Spaced words.now distance shards }
    ensures { result ≡ all_differ shards (λ z. get_or words.now (z * distance) 0) }
{
    (0..shards).all(|a| differs_below(words, distance, a, words[a * distance]))
}
