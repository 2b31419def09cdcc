// Where the words of buckets and slots lie, and what stands there.
ghost use Rattle.std.specs.Prelude.{◌≡◌, ◌^◌, ◌<◌};
ghost use Rattle.rules.specs.Words.{token_word, key_word, spot_of, token_of, key_in, record_in};
ghost use Rattle.reading.specs.Within.{BucketWithin, SlotWithin};

use rules::layout::{BUCKET_WORDS, FIRST_SLOT, HEADER_WORDS, SLOT_WORDS};
use rules::{Record, Slot, Spot};

// "Bucket j starts at word 9 + 13j"
pub fn token_word(j: usize) -> usize
    requires { j < 2 ^ 59 }
    ensures { result ≡ token_word j }
{
    HEADER_WORDS + BUCKET_WORDS * j
}

// "Slot s starts at offset 1 + 3s."
pub fn key_word(x: Slot) -> usize
    requires { (x.bucket < 2 ^ 59) × (x.slot < 4) }
    ensures { result ≡ key_word x }
{
    token_word(x.bucket) + (FIRST_SLOT + SLOT_WORDS * x.slot)
}

// "the word index of the key found and whether it was top, bottom or interim"
pub fn spot(x: Slot) -> Spot
    requires { (x.bucket < 2 ^ 59) × (x.slot < 4) }
    ensures { result ≡ spot_of x }
{
    Spot {
        word: key_word(x) as u64,
        level: x.level,
    }
}

pub fn token(t: &[u64], j: usize) -> u64
    requires { BucketWithin t.now j }
    ensures { result ≡ token_of t.now j }
{
    t[token_word(j)]
}

pub fn key_at(t: &[u64], x: Slot) -> u64
    requires { SlotWithin t.now x }
    ensures { result ≡ key_in t.now x }
{
    t[key_word(x)]
}

pub fn record_at(t: &[u64], x: Slot) -> Record
    requires { SlotWithin t.now x }
    ensures { result ≡ record_in t.now x }
{
    let at = key_word(x);
    Record {
        function: t[at + 1],
        place: t[at + 2],
    }
}
