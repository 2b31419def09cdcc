// A free slot in a level: "the place with fewer taken slots (tie: first place), lowest free slot".
ghost use Rattle.std.specs.Prelude.{◌≡◌, ◌<◌, length};
ghost use Rattle.rules.specs.Words.{GoodState, levels_in_use};
ghost use Rattle.rules.specs.Placing.{free_slot, emptier as emptier_of, room_in};
ghost use Rattle.reading.specs.Levels.{nth_level};
ghost use Rattle.reading.specs.Within.{BucketWithin, slot_found, FoundWithin};
ghost use Rattle.placing.specs.Within.{LevelWithin};

use super::buckets::{bucket, lowest_free, slot_of};
use reading::places::place_in_use;
use reading::slots::token;
use reading::tokens::{both_full, taken_count};
use rules::{Hashes, Header, Place, Slot};

// The "lowest free slot" of a place.
pub fn free_slot(t: &[u64], h: Header, p: Place) -> Option<Slot>
    requires { BucketWithin t.now p.bucket }
    ensures { (result ≡ slot_found (free_slot t.now h p)) × FoundWithin t.now result }
{
    let word = token(t, p.bucket);
    let items = bucket(t, p);
    let s = lowest_free(h, word, items);
    if s == items.len() {
        return None;
    }
    Some(slot_of(p, s))
}

// "the place with fewer taken slots (tie: first place)". Where they coincide they tie.
fn emptier(t: &[u64], h: Header, first: Place, second: Place) -> Place
    requires { BucketWithin t.now first.bucket × BucketWithin t.now second.bucket }
    ensures { (result ≡ emptier_of t.now h first second) × BucketWithin t.now result.bucket }
{
    let in_first = taken_count(h, token(t, first.bucket));
    let in_second = taken_count(h, token(t, second.bucket));
    if in_second < in_first {
        return second;
    }
    first
}

// The same of the emptier of a key's two places in the n-th level in use: 0 is the top, 1 the bottom. That both are full is tested first:
// in a loaded table the top mostly is.
pub fn room(t: &[u64], h: Header, x: Hashes, n: usize) -> Option<Slot>
    requires { GoodState 20 h.state × (n < length (levels_in_use h.state)) × LevelWithin t.now (nth_level h.state n) }
    ensures { (result ≡ slot_found (room_in t.now h x (nth_level h.state n))) × FoundWithin t.now result }
{
    let first = place_in_use(x.first, h.state, n);
    let second = place_in_use(x.second, h.state, n);
    if both_full(h, token(t, first.bucket), token(t, second.bucket)) {
        return None;
    }
    free_slot(t, h, emptier(t, h, first, second))
}
