// The items of the interim level, "bucket, then slot ascending", from one of its buckets on: the first of them, and the first that has a
// place.
ghost use Rattle.std.specs.Prelude.{◌≡◌, false, length};
ghost use mathlib.Core.List.{head?};
ghost use Rattle.rules.specs.Words.{GoodState, GoodHeader, at_rest, interim_of, InLevel};
ghost use Rattle.rules.specs.Calls.{interim_bucket, items_from, step_item};
ghost use Rattle.reading.specs.Gates.{Headed};
ghost use Rattle.reading.specs.Within.{BucketWithin, slot_found, FoundWithin};
ghost use Rattle.growing.specs.Interim.{placeable_in, FoundBy};

use placing::interim_placing;
use reading::levels::interim;
use reading::places::hashes;
use reading::slots::{key_at, token};
use reading::tokens::{any_taken, is_taken, lowest_taken};
use rules::{Header, Place, Placing, Slot, State};
use words::power;

// An item and the placing that was found for it: nothing where no item has a place.
#[derive(Clone, Copy)]
pub struct Found {
    pub item: Slot,
    pub placing: Placing,
}

// The first taken interim slot from bucket b of the level on, whether it has a place or not.
pub fn first_item(t: &[u64], h: Header, b: u64) -> Option<Slot>
    requires { GoodHeader (length t.now) h × (at_rest h.state ≡ false) }
    ensures { (result ≡ slot_found (head? (items_from t.now h b))) × FoundWithin t.now result }
{
    let level = interim(h.state);
    let m = power(level.exponent);
    for i in b as usize..m {
        let j = m - 1 + i;
        let word = token(t, j);
        if any_taken(h, word) {
            return Some(Slot {
                level: level.name,
                bucket: j,
                slot: lowest_taken(h, word),
            });
        }
    }
    None
}

// The bucket of a slot of the interim level, "counted from 0 in the level".
pub fn bucket_in_level(state: State, x: Slot) -> usize
    requires { GoodState 20 state × (at_rest state ≡ false) × InLevel (interim_of state) x.bucket }
    ensures { result ≡ interim_bucket state x }
{
    x.bucket - (power(interim(state).exponent) - 1)
}

// Of one bucket, the first item that has a place.
fn placed_in(t: &[u64], h: Header, p: Place) -> Found
    requires { Headed t.now h × BucketWithin t.now p.bucket }
    ensures { FoundBy t.now h (placeable_in t.now h p) result }
{
    let word = token(t, p.bucket);
    for s in 0..4 {
        let x = Slot {
            level: p.level,
            bucket: p.bucket,
            slot: s,
        };
        if is_taken(h, word, s) {
            let key = key_at(t, x);
            let found = interim_placing(t, h, key, hashes(h, key));
            let Placing::Nowhere = found else {
                return Found {
                    item: x,
                    placing: found,
                };
            };
        }
    }
    Found {
        item: Slot {
            level: p.level,
            bucket: p.bucket,
            slot: 0,
        },
        placing: Placing::Nowhere,
    }
}

// "the first interim item, in the same order, that has a place", from bucket b of the level on. Most buckets of a growth are empty, and
// passed over by one test.
pub fn first_placed(t: &[u64], h: Header, b: usize) -> Found
    requires { Headed t.now h × (at_rest h.state ≡ false) }
    ensures { FoundBy t.now h (step_item t.now h b) result }
{
    let level = interim(h.state);
    let m = power(level.exponent);
    for i in b..m {
        let place = Place {
            level: level.name,
            bucket: m - 1 + i,
        };
        if any_taken(h, token(t, place.bucket)) {
            let found = placed_in(t, h, place);
            let Placing::Nowhere = found.placing else {
                return found;
            };
        }
    }
    Found {
        item: Slot {
            level: level.name,
            bucket: b,
            slot: 0,
        },
        placing: Placing::Nowhere,
    }
}
