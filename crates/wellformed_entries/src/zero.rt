// Words that are all 0.
ghost use Rattle.std.specs.Prelude.{◌≡◌, length, nat_eq, slice_index};
ghost use Rattle.model.specs.Tests.{all_below};

// Whether all words are 0: joined without an early exit, and tested once.
pub fn all_zero(words: &[u64]) -> bool
    ensures { result ≡ all_below (length words.now) (λ i. nat_eq (slice_index words.now i) 0) }
{
    words.iter().fold(0, |joined, word| joined | *word) == 0
}
