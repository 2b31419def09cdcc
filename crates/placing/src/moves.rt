// "If all are full, one move." The first item of the key's places that can give up its slot.
ghost use Rattle.std.specs.Prelude.{◌≡◌, ◌≤◌, length, take};
ghost use Rattle.rules.specs.Choice.{first_of};
ghost use Rattle.rules.specs.Words.{GoodHeader, header_of};
ghost use Rattle.rules.specs.Places.{hashes_of, places_in};
ghost use Rattle.rules.specs.Placing.{move_of, candidates};
ghost use Rattle.reading.specs.Levels.{list_held};
ghost use Rattle.reading.specs.Within.{BucketWithin, SlotWithin, AllWithin, PlacingWithin};
ghost use Rattle.placing.specs.Within.{LevelWithin};
ghost use Rattle.placing.specs.Search.{optional, goals_of, bucket_move, places_move};

use super::buckets::{bucket, slot_of};
use super::room::free_slot;
use reading::header::decode;
use reading::levels::{bottom, top};
use reading::places::{Places, both_places, hashes, no_place, one_place, place};
use rules::{Hashes, Header, Level, Place, Placing, Slot};

// Where the items of a part may go, in a level: up to either of their places there, or else to their "other" place.
#[derive(Clone, Copy)]
pub struct Way {
    pub up: bool,
    pub level: Level,
}

// "Other" means "the first bucket, of the item's first and second place in that order, that is not the one it stands in".
fn goals_of(x: Hashes, from: Slot, way: Way) -> Places
    requires { way.level.exponent ≤ 20 }
    ensures { (list_held result ≡ goals_of way x from) × (result.n ≤ 2) }
{
    let level = way.level;
    if way.up {
        return both_places(x, level);
    }
    let first = place(x.first, level);
    if first.bucket != from.bucket {
        return one_place(first);
    }
    let second = place(x.second, level);
    if second.bucket != from.bucket {
        return one_place(second);
    }
    no_place()
}

// "The first item with a free slot there moves to the lowest one, and the new item takes its old slot."
fn move_to(t: &[u64], h: Header, from: Slot, goals: [Place; 2], n: usize) -> Placing
    requires { (n ≤ 2) × AllWithin t.now (take n goals) × SlotWithin t.now from }
    ensures { (optional result ≡ move_of t.now h (record { item = from; goals = take n goals })) × PlacingWithin t.now result }
{
    for i in 0..n {
        if let Some(to) = free_slot(t, h, goals[i]) {
            return Placing::Move(from, to);
        }
    }
    Placing::Nowhere
}

// One item: where it stands, and its key.
fn move_item(t: &[u64], h: Header, from: Slot, key: u64, way: Way) -> Placing
    requires { LevelWithin t.now way.level × SlotWithin t.now from }
    ensures { (optional result ≡ move_of t.now h (record { item = from; goals = goals_of way (hashes_of h key) from }))
        × PlacingWithin t.now result }
{
    let goals = goals_of(hashes(h, key), from, way);
    let list = goals.list;
    move_to(t, h, from, list, goals.n)
}

// Slot choice where all are taken: the first item of a bucket, "slots 0 to 3", that can give up its slot. Its records tell the
// keys, and so the places of each item; none is asked whether it is taken, since moves are tried only where all are.
fn moves_of_bucket(t: &[u64], h: Header, p: Place, items: [[u64; 3]; 4], way: Way) -> Placing
    requires { BucketWithin t.now p.bucket × LevelWithin t.now way.level }
    ensures { (optional result ≡ bucket_move t.now h way p items) × PlacingWithin t.now result }
{
    for s in 0..items.len() {
        let found = move_item(t, h, slot_of(p, s), items[s][0], way);
        let Placing::Nowhere = found else {
            return found;
        };
    }
    Placing::Nowhere
}

// The items of n places, one place after the other.
fn moves_of_places(t: &[u64], h: Header, places: [Place; 2], n: usize, way: Way) -> Placing
    requires { (n ≤ 2) × AllWithin t.now (take n places) × LevelWithin t.now way.level }
    ensures { (optional result ≡ places_move t.now h way (take n places)) × PlacingWithin t.now result }
{
    for i in 0..n {
        let p = places[i];
        let found = moves_of_bucket(t, h, p, bucket(t, p), way);
        let Placing::Nowhere = found else {
            return found;
        };
    }
    Placing::Nowhere
}

// The items of the key's places in a level, "first place, then second if different, slots 0 to 3".
fn moves_of_level(t: &[u64], h: Header, x: Hashes, l: Level, way: Way) -> Placing
    requires { LevelWithin t.now l × LevelWithin t.now way.level }
    ensures { (optional result ≡ places_move t.now h way (places_in x l)) × PlacingWithin t.now result }
{
    let places = both_places(x, l);
    let list = places.list;
    moves_of_places(t, h, list, places.n, way)
}

// "those of the key's top places, to the item's other top place; those of its bottom places, to the item's other bottom
// place; those of its bottom places again, to the item's first top place, else its second"
fn first_move(t: &[u64], h: Header, x: Hashes) -> Placing
    requires { GoodHeader (length t.now) h }
    ensures { (optional result ≡ first_of (move_of t.now h) (candidates t.now h x)) × PlacingWithin t.now result }
{
    let upper = top(h.state);
    let lower = bottom(h.state);
    let along_top = Way {
        up: false,
        level: upper,
    };
    let along_bottom = Way {
        up: false,
        level: lower,
    };
    let upward = Way {
        up: true,
        level: upper,
    };
    let in_top = moves_of_level(t, h, x, upper, along_top);
    let Placing::Nowhere = in_top else {
        return in_top;
    };
    let in_bottom = moves_of_level(t, h, x, lower, along_bottom);
    let Placing::Nowhere = in_bottom else {
        return in_bottom;
    };
    moves_of_level(t, h, x, lower, upward)
}

// "If all are full, one move." The header is read from the table again: what is asked for so seldom is not to keep the header in registers
// all through an insert.
pub fn moving(t: &[u64], x: Hashes) -> Placing
    requires { GoodHeader (length t.now) (header_of t.now) }
    ensures { (optional result ≡ first_of (move_of t.now (header_of t.now))
        (candidates t.now (header_of t.now) x)) × PlacingWithin t.now result }
{
    first_move(t, decode(t), x)
}
