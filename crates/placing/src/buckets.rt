// "A slot is handled as one record of three words, a bucket as four such records." Buckets by value, and the choice of a free
// slot in one.
ghost use Rattle.std.specs.Prelude.{◌≡◌, ◌≤◌};
ghost use Rattle.rules.specs.Words.{slot_at};
ghost use Rattle.reading.specs.Within.{BucketWithin, SlotWithin};
ghost use Rattle.placing.specs.Buckets.{item_in, items_in, first_free};

use reading::slots::{key_at, record_at};
use rules::{Header, Place, Slot};

// The record of a slot: key, function, place.
fn item(t: &[u64], x: Slot) -> [u64; 3]
    requires { SlotWithin t.now x }
    ensures { result ≡ item_in t.now x }
{
    let key = key_at(t, x);
    let record = record_at(t, x);
    [key, record.function, record.place]
}

// Slot s of a place.
pub fn slot_of(p: Place, s: usize) -> Slot
    ensures { (result ≡ slot_at p s) × (result.bucket ≡ p.bucket) × (result.slot ≡ s) }
{
    Slot {
        level: p.level,
        bucket: p.bucket,
        slot: s,
    }
}

// The four records of a place.
pub fn bucket(t: &[u64], p: Place) -> [[u64; 3]; 4]
    requires { BucketWithin t.now p.bucket }
    ensures { result ≡ items_in t.now p }
{
    [
        item(t, slot_of(p, 0)),
        item(t, slot_of(p, 1)),
        item(t, slot_of(p, 2)),
        item(t, slot_of(p, 3)),
    ]
}

// Slot choice where a slot is free: the "lowest free slot" of a bucket with that token word. Its number is that of the first free
// record, or 4, one past the last record, where there is none. The token word alone tells which it is.
pub fn lowest_free(h: Header, word: u64, items: [[u64; 3]; 4]) -> usize
    ensures { (result ≡ first_free h word items) × (result ≤ 4) }
{
    reading::tokens::lowest_free(h, word)
}
