// The places of a key: its two hashes, and in a level its first place and, if different, its second.
ghost use Rattle.std.specs.Prelude.{◌≡◌, [], ◌∷◌, ◌+◌, ◌*◌, ◌^◌, ◌≤◌, ◌<◌, length};
ghost use Rattle.rules.specs.Forms.{tag_of};
ghost use Rattle.rules.specs.Words.{GoodState, size_of, levels_in_use};
ghost use Rattle.rules.specs.Places.{hashes_of, places_in};
ghost use Rattle.reading.specs.Levels.{nth_level, place_from, place_in, list_held};

use super::forms::{mixed, tag_from};
use super::levels::nth_first;
use rules::{Hashes, Header, Level, Place, State};
use words::{hash, power, product};

// At most two places: the first n of the list.
#[derive(Clone, Copy)]
pub struct Places {
    pub list: [Place; 2],
    pub n: usize,
}

// The hashes of a key and, from the same product as hash 1, its tag.
pub fn hashes(h: Header, key: u64) -> Hashes
    ensures { result ≡ hashes_of h key }
{
    let hashed = mixed(h, key);
    let product1 = product(hashed, h.mul1);
    Hashes {
        first: product1 / 4294967296,
        second: hash(hashed, h.mul2),
        tag: tag_from(h, product1),
    }
}

// The tag alone.
pub fn tag(h: Header, key: u64) -> u64
    ensures { (result ≡ tag_of h key) × (result < 256) }
{
    tag_from(h, product(mixed(h, key), h.mul1))
}

// The place of a hash in the level of that name and first bucket, which is M − 1: M is a power of two, so the bits of "hash modulo M"
// are those that M − 1 has.
fn place_from(name: u64, first: usize, hash: u64) -> Place
    requires { first < 2 ^ 20 }
    ensures { result ≡ place_from name first hash }
{
    Place {
        level: name,
        bucket: first + (hash as usize & first),
    }
}

// The place of a hash in a level.
pub fn place(hash: u64, l: Level) -> Place
    requires { l.exponent ≤ 20 }
    ensures { (result ≡ place_in l hash) × (result.bucket + 1 < 2 * size_of l) }
{
    place_from(l.name, power(l.exponent) - 1, hash)
}

// The place of a hash in the n-th level in use.
pub fn place_in_use(hash: u64, s: State, n: usize) -> Place
    requires { GoodState 20 s × (n < length (levels_in_use s)) }
    ensures { (result ≡ place_in (nth_level s n) hash) × (result.bucket + 1 < 2 * size_of (nth_level s n)) }
{
    place_from(n as u64, nth_first(s, n), hash)
}

pub fn no_place() -> Places
    ensures { (list_held result ≡ []) × (result.n ≤ 2) }
{
    Places {
        list: [Place {
            level: 0,
            bucket: 0,
        }; 2],
        n: 0,
    }
}

pub fn one_place(p: Place) -> Places
    ensures { (list_held result ≡ p ∷ []) × (result.n ≤ 2) }
{
    Places { list: [p; 2], n: 1 }
}

// "first place, then second if different"
pub fn both_places(x: Hashes, l: Level) -> Places
    requires { l.exponent ≤ 20 }
    ensures { (list_held result ≡ places_in x l) × (result.n ≤ 2) }
{
    let first = place(x.first, l);
    let second = place(x.second, l);
    if first.bucket == second.bucket {
        return one_place(first);
    }
    Places {
        list: [first, second],
        n: 2,
    }
}
