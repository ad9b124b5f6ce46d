// Where a state's words are, and how many: the numbers of `Layout` and `Replicas` of `model`.

// Hosts are the numbers below this one.
pub const HOSTS: u64 = 16;

// A shard has its head words and then so many configurations, each of so many replicas.
pub const CONFIGURATIONS: usize = 8;

pub const REPLICAS: usize = 4;

pub const SHARD_WORDS: usize = 2112;

pub const HEAD_WORDS: usize = 64;

pub const CONFIGURATION_WORDS: usize = 256;

pub const REPLICA_WORDS: usize = 64;

// Head words: the count of configurations, where member sets, orderers and the rest begin, and how many the rest are. The sequencer is the first.
pub const INSTALLED: usize = 1;

pub const MEMBERS: usize = 2;

pub const ORDERERS: usize = 10;

pub const REST: usize = 18;

pub const REST_WORDS: usize = 46;

// A replica's words: its history's length, its stable length, its origin, the words that are 0, and where its entries begin. The mode is the first.
pub const LENGTH: usize = 1;

pub const STABLE: usize = 2;

pub const ORIGIN: usize = 3;

pub const RESERVED: usize = 4;

pub const ENTRIES: usize = 8;

// A history has at most so many entries.
pub const MOST_ENTRIES: u64 = 56;

// Modes of a replica. An unused one has mode 0. They are words and no enum: a state is any words of the caller, which its check compares.
pub const PENDING: u64 = 1;

pub const ACTIVE: u64 = 2;

pub const IMMUTABLE: u64 = 3;
