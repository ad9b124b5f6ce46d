// Words of two lists compared: all of them, and how many first ones agree.

#![tactic(auto)]

ghost use Rattle.std.specs.Prelude.{◌≡◌, length};
ghost use Rattle.model.specs.Tests.{same};
ghost use Rattle.alike_words.specs.EightAtOnce.{agreeing};

// So many words are compared in a turn.
const TURN: usize = 8;

// Whether two lists of words are the same: what differs is joined without an early exit, and tested once.
pub fn are_alike(a: &[u64], b: &[u64]) -> bool
    requires { length a.now ≡ length b.now }
    ensures { result ≡ same a.now b.now }
{
    let pairs = a.iter().zip(b);
    pairs.fold(0, |all, (x, y)| all | (*x ^ *y)) == 0
}

// How many first words of two lists agree, told in turns of eight, the last one with the last eight words: all, or those before the first turn that
// differs. Of fewer than eight words it tells nothing. Turns are counted, and no chunks: the last one may overlap the one before.
pub fn agreeing(a: &[u64], b: &[u64]) -> usize
    requires { length a.now ≡ length b.now }
    ensures { result ≡ agreeing a.now b.now }
{
    let n = a.len();
    if n < TURN {
        return 0;
    }
    let turns = (n - 1) / TURN;
    for t in 0..turns {
        let i = TURN * t;
        if !are_alike(&a[i..i + TURN], &b[i..i + TURN]) {
            return i;
        }
    }
    let last = n - TURN;
    if are_alike(&a[last..], &b[last..]) {
        n
    } else {
        TURN * turns
    }
}
