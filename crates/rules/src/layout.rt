// Document 01's "Words": where the words of a table stand.

// The words of the header, by their index: form, c, A1, A2 and state.
pub const FORM: usize = 0;

pub const CAPACITY: usize = 1;

pub const MULTIPLIER1: usize = 2;

pub const MULTIPLIER2: usize = 3;

pub const STATE: usize = 4;

// The update flag, and the log of an update: "update target, function, place".
pub const FLAG: usize = 5;

pub const TARGET: usize = 6;

pub const LOGGED_FUNCTION: usize = 7;

pub const LOGGED_PLACE: usize = 8;

// "Bucket j starts at word 9 + 13j": the words before the first bucket, and those of a bucket.
pub const HEADER_WORDS: usize = 9;

pub const BUCKET_WORDS: usize = 13;

// "Slot s starts at offset 1 + 3s.": the token word comes before the slots; and the words of a slot.
pub const FIRST_SLOT: usize = 1;

pub const SLOT_WORDS: usize = 3;

// "A key is address·256 + inlining depth": the depths of an address, the largest of them, and the addresses that leave room for them, 2^56.
pub const DEPTHS: u64 = 256;

pub const LARGEST_DEPTH: u64 = 255;

pub const ADDRESSES: u64 = 1 << 56;
