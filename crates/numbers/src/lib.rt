// Numbers in seven-bit groups, as logs have them: from bytes and to bytes. What they mean is in `model`: `Numbers`.

#![tactic(auto)]

pub mod read;
pub mod write;

// A number has at most so many bytes.
pub const MOST_BYTES: usize = 5;

// What they hold, seven bits each, is below it.
pub const LIMIT: u64 = 1 << 35;

// The bit of a byte that tells that more follow; the bits below it are the number's.
pub const TOP_BIT: u64 = 128;
