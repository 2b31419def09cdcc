// The taken slots, "by top, bottom, interim, then bucket and slot ascending". Where the lookup of its key ends at the slot itself,
// the slot is in a place of its key and no other that comes before it there has the key; so a table in which every one does has no
// key twice.
ghost use Rattle.std.specs.Prelude.{◌≡◌, cond, ◌≤◌, length};
ghost use mathlib.Core.List.{map, foldl};
ghost use Rattle.rules.specs.Choice.{any};
ghost use Rattle.rules.specs.Words.{GoodState, GoodHeader, place_of, slots_in, slots_of};
ghost use Rattle.rules.specs.Places.{same_place, places_in, probes};
ghost use Rattle.scanning.specs.Copying.{in_order};
ghost use Rattle.reading.specs.Within.{BucketWithin, SlotWithin};
ghost use Rattle.scanning.specs.declared.copies.Scan.TheVariants.{Spoilt};
ghost use Rattle.scanning.specs.Scans.{met_of, item_met, slot_met, scan_of};

use super::copies::{Scan, is_same, met};
use querying::lookup::lookup_by;
use reading::levels::{level_count, nth_level};
use reading::places::{hashes, place};
use reading::slots::{key_at, token};
use reading::tokens::is_taken;
use rules::{Hashes, Header, Level, Lookup, Place, Slot, State};
use words::power;

// Whether a slot is in one of a key's two places in a level.
fn stands_in(x: Slot, hash: Hashes, l: Level) -> bool
    requires { l.exponent ≤ 20 }
    ensures { result ≡ any (map (same_place (place_of x)) (places_in hash l)) }
{
    x.bucket == place(hash.first, l).bucket || x.bucket == place(hash.second, l).bucket
}

// "each taken slot in a place of its key"
fn stands(s: State, hash: Hashes, x: Slot) -> bool
    requires { GoodState 20 s }
    ensures { result ≡ any (map (same_place (place_of x)) (probes s hash)) }
{
    (0..level_count(s)).any(|n| stands_in(x, hash, nth_level(s, n)))
}

// Slot x, when the lookup of its key, with these hashes, ends at slot y.
fn copied(s: State, hash: Hashes, x: Slot, y: Slot, found: Scan) -> Scan
    requires { GoodState 20 s }
    ensures { result ≡ cond (any (map (same_place (place_of x)) (probes s hash))) (met_of found (in_order x y)) Spoilt }
{
    if !stands(s, hash, x) {
        return Scan::Spoilt;
    }
    met(found, x, y)
}

fn item(t: &[u64], h: Header, x: Slot, found: Scan) -> Scan
    requires { GoodHeader (length t.now) h × SlotWithin t.now x }
    ensures { result ≡ item_met t.now h found x }
{
    let key = key_at(t, x);
    let hash = hashes(h, key);
    let end = lookup_by(t, h, key, hash);
    match end {
        Lookup::Stands(y, _) => {
            if is_same(x, y) {
                return found;
            }
            copied(h.state, hash, x, y, found)
        }
        Lookup::Absent(_) => Scan::Spoilt,
    }
}

fn scan_bucket(t: &[u64], h: Header, p: Place, found: Scan) -> Scan
    requires { GoodHeader (length t.now) h × BucketWithin t.now p.bucket }
    ensures { result ≡ foldl (slot_met t.now h) found (slots_in p) }
{
    let word = token(t, p.bucket);
    let mut all = found;
    for s in 0..4 {
        if is_taken(h, word, s) {
            let x = Slot {
                level: p.level,
                bucket: p.bucket,
                slot: s,
            };
            all = item(t, h, x, all);
        }
    }
    all
}

fn scan_level(t: &[u64], h: Header, l: Level, found: Scan) -> Scan
    requires { GoodHeader (length t.now) h × (l.exponent ≤ h.c) }
    ensures { result ≡ foldl (slot_met t.now h) found (slots_of l) }
{
    let size = power(l.exponent);
    let mut all = found;
    for i in 0..size {
        let p = Place {
            level: l.name,
            bucket: size - 1 + i,
        };
        all = scan_bucket(t, h, p, all);
    }
    all
}

// All taken slots of the levels in use.
pub fn scan_table(t: &[u64], h: Header) -> Scan
    requires { GoodHeader (length t.now) h }
    ensures { result ≡ scan_of t.now h }
{
    let levels = level_count(h.state);
    let mut all = Scan::Clear;
    for n in 0..levels {
        all = scan_level(t, h, nth_level(h.state, n), all);
    }
    all
}
