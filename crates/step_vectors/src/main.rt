// Takes step vectors through `machine::step` and compares each answer, and a checksum of the state after it, with what is expected.
// Standard input has them as numbers in groups of seven bits, highest first, top bit on all bytes but the last: how many vectors, and
// for each the state's length, the step, the answer, the checksum, and the words that are not 0: how many, and index and value of each.

#![tactic(auto)]

use std::io;
use std::io::Read;
use types::rejection::number_of;
use types::step::Step;

// The bits of a number in one byte, and the top bit of all its bytes but the last.
const GROUP_BITS: u32 = 7;

const MORE: u8 = 1 << GROUP_BITS;

// The most bytes of a number.
const MOST_GROUPS: usize = 10;

// FNV-1a of 64 bits: its prime, 2^40 + 435, and what it begins with.
const FNV_PRIME: u64 = 1099511628211;

const FNV_BASIS: u64 = 14695981039346656037;

// The room for a state. A vector with a longer one counts as one that differs.
const SPACE_WORDS: usize = 40000;

// One byte of the input, 0 at its end and where it cannot be read.
fn byte<R: Read>(input: &mut R) -> u8 {
    let mut b = [0u8; 1];
    match input.read(&mut b) {
        Ok(_) => b[0],
        Err(_) => 0,
    }
}

// One number of the input.
fn number<R: Read>(input: &mut R) -> u64 {
    let mut v = 0;
    for _ in 0..MOST_GROUPS {
        let b = byte(input);
        v = v << GROUP_BITS | u64::from(b % MORE);
        if b < MORE {
            break;
        }
    }
    v
}

// A step of the input.
fn step<R: Read>(input: &mut R) -> Step {
    Step {
        kind: number(input),
        a: number(input),
        b: number(input),
        c: number(input),
        d: number(input),
    }
}

// The words of a state: all 0 but for those of the input. One with no place in it is left out.
fn fill<R: Read>(input: &mut R, space: &mut [u64]) {
    space.fill(0);
    for _ in 0..number(input) {
        let at = number(input) as usize;
        let v = number(input);
        if let Some(word) = space.get_mut(at) {
            *word = v;
        }
    }
}

// One byte joins a checksum.
fn joined(sum: u64, byte: u8) -> u64 {
    (sum ^ u64::from(byte)).wrapping_mul(FNV_PRIME)
}

// FNV-1a over a state's words, the lowest byte of each first.
fn checksum(state: &[u64]) -> u64 {
    state.iter().fold(FNV_BASIS, |sum, word| {
        let bytes = word.to_le_bytes();
        bytes.iter().fold(sum, |sum, byte| joined(sum, *byte))
    })
}

// One vector: whether its answer and the state after it are other than expected.
fn differs<R: Read>(input: &mut R, space: &mut [u64]) -> bool {
    let len = number(input) as usize;
    let s = step(input);
    let answer = number(input);
    let check = number(input);
    fill(input, space);
    match space.get_mut(..len) {
        Some(state) => number_of(&machine::step(state, s)) != answer || checksum(state) != check,
        None => true,
    }
}

fn main(rt: HostRuntime) -> io::Result<()> {
    let mut input = rt.stdin();
    let mut space = [0u64; SPACE_WORDS];
    let total = number(&mut input);
    let differ = (0..total)
        .filter(|_| differs(&mut input, &mut space))
        .count();
    println!(rt; "{total} steps, {differ} differ")
}
