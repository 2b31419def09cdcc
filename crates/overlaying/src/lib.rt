// Document 02, request i): reloaded code over a shipped build. Two tables are asked as one: "a key in the newer table hides the same key in the
// older". Both are only read.
//
// What `asked` tells and the part that `parts` gives rest on the same tests and the same lookups, but each goes through them by itself: so the compiler
// keeps what a lookup finds in registers, and the answer of one does not go through memory to the other (docs/DECISIONS.md).
#![tactic(auto)]

pub mod parts;

ghost use Rattle.std.specs.Prelude.{◌≡◌, ◌^◌, ◌≤◌, ◌<◌, length};
ghost use Rattle.rules.specs.Forms.{tagged};
ghost use Rattle.rules.specs.Words.{GoodHeader, key_word as key_word_of};
ghost use Rattle.rules.specs.Places.{lookup as lookup_of};
ghost use Rattle.rules.specs.Answers.{hits, lacks};
ghost use Rattle.rules.specs.Overlays.{in_older, in_either};
ghost use Rattle.overlaying.specs.Promises.{Near, Asks};

use querying::lookup::lookup_with;
use reading::forms::has_tags;
use reading::gate::query_gate;
use reading::places::hashes;
use reading::slots::key_word;
use rules::{Asked, Header, Hit, Lookup, Miss, Refusal, Side, Slot};

// A key that a table holds in slot x.
fn held_by(side: Side, x: Slot, looked: u64) -> Hit
    requires { (x.bucket < 2 ^ 59) × (x.slot < 4) }
    ensures { Ok result ≡ hits side (key_word_of x) looked }
{
    Hit {
        side,
        word: key_word(x) as u64,
        looked,
    }
}

// A refusal, told of a table.
fn refused_by(side: Side, refusal: Refusal, looked: u64) -> Miss
    ensures { Err result ≡ lacks side refusal looked }
{
    Miss {
        side,
        refusal,
        looked,
    }
}

// What the older table's lookup tells, behind so many buckets of the newer: "5 when neither has the key"; "with 5 the older".
fn older_told(found: Lookup, before: u64) -> Asked
    requires { Near found × (before ≤ 6) }
    ensures { result ≡ in_older before found }
{
    match found {
        Lookup::Stands(x, looked) => Ok(held_by(Side::Older, x, before + looked)),
        Lookup::Absent(looked) => Err(refused_by(Side::Older, Refusal::KeyAbsent, before + looked)),
    }
}

// As in a query, there is code of its own for tables whose slots have tags.
fn older_asked<const TAGS: bool>(older: &[u64], g: Header, key: u64, before: u64) -> Asked
    requires { GoodHeader (length older.now) g × (before ≤ 6) × (TAGS ≡ tagged g) }
    ensures { result ≡ in_older before (lookup_of older.now g key) }
{
    older_told(lookup_with(older, g, key, hashes(g, key), TAGS), before)
}

fn in_older(older: &[u64], g: Header, key: u64, before: u64) -> Asked
    requires { GoodHeader (length older.now) g × (before ≤ 6) }
    ensures { result ≡ in_older before (lookup_of older.now g key) }
{
    if has_tags(g) {
        return older_asked::<true>(older, g, key, before);
    }
    older_asked::<false>(older, g, key, before)
}

// What the newer table's lookup tells; only where it finds nothing is the older table looked up.
fn newer_told(found: Lookup, older: &[u64], g: Header, key: u64) -> Asked
    requires { Near found × GoodHeader (length older.now) g }
    ensures { result ≡ in_either found (lookup_of older.now g key) }
{
    match found {
        Lookup::Stands(x, looked) => Ok(held_by(Side::Newer, x, looked)),
        Lookup::Absent(looked) => in_older(older, g, key, looked),
    }
}

fn newer_asked<const TAGS: bool>(
    newer: &[u64],
    h: Header,
    older: &[u64],
    g: Header,
    key: u64,
) -> Asked
    requires { GoodHeader (length newer.now) h × GoodHeader (length older.now) g × (TAGS ≡ tagged h) }
    ensures { result ≡ in_either (lookup_of newer.now h key) (lookup_of older.now g key) }
{
    newer_told(
        lookup_with(newer, h, key, hashes(h, key), TAGS),
        older,
        g,
        key,
    )
}

// "Ask both: a key in the newer table hides the same key in the older." Behind the tests of both.
fn in_either(newer: &[u64], h: Header, older: &[u64], g: Header, key: u64) -> Asked
    requires { GoodHeader (length newer.now) h × GoodHeader (length older.now) g }
    ensures { result ≡ in_either (lookup_of newer.now h key) (lookup_of older.now g key) }
{
    if has_tags(h) {
        return newer_asked::<true>(newer, h, older, g, key);
    }
    newer_asked::<false>(newer, h, older, g, key)
}

// "Refusals 1 and 3 are tested on both tables before any lookup, both of the newer first"; "With 1 or 3 name that table, count 0".
pub fn asked(newer: &[u64], older: &[u64], key: u64) -> Asked
    ensures { Asks newer.now older.now key result newer.now older.now }
{
    let h = match query_gate(newer) {
        Ok(h) => h,
        Err(refusal) => return Err(refused_by(Side::Newer, refusal, 0)),
    };
    let g = match query_gate(older) {
        Ok(g) => g,
        Err(refusal) => return Err(refused_by(Side::Older, refusal, 0)),
    };
    in_either(newer, h, older, g, key)
}
