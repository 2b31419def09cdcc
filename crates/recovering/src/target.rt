// "word 6 the key word of a taken slot in a level in use": the slot by arithmetic, and not by a search.
ghost use Rattle.std.specs.Prelude.{◌≡◌, ◌≤◌, length};
ghost use Rattle.rules.specs.Words.{header_of, GoodState, GoodHeader};
ghost use Rattle.rules.specs.Soundness.{target as target_of};
ghost use Rattle.recovering.specs.Found.{in_level, home_of, means};

use reading::levels::{level_count, nth_level};
use reading::slots::token;
use reading::tokens::is_taken;
use rules::layout::{BUCKET_WORDS, FIRST_SLOT, HEADER_WORDS, SLOT_WORDS, TARGET};
use rules::{Header, Level, Slot, State};
use words::power;

// "A level of M buckets .. is always buckets M − 1 to 2M − 2."
fn in_level(l: Level, j: usize) -> bool
    requires { l.exponent ≤ 20 }
    ensures { result ≡ in_level j l }
{
    let size = power(l.exponent);
    if j < size - 1 {
        return false;
    }
    j <= 2 * size - 2
}

// The level in use that a bucket belongs to, if it belongs to one.
fn home_of(s: State, j: usize) -> Option<Level>
    requires { GoodState 20 s }
    ensures { means result ≡ home_of s j }
{
    let count = level_count(s);
    for n in 0..count {
        let level = nth_level(s, n);
        if in_level(level, j) {
            return Some(level);
        }
    }
    None
}

// The slot that word 6 names, if it names a taken slot in a level in use: "Bucket j starts at word 9 + 13j"; "Slot s starts at offset 1 + 3s."
pub fn find_target(t: &[u64], h: Header) -> Option<Slot>
    requires { GoodHeader (length t.now) h × (h ≡ header_of t.now) }
    ensures { means result ≡ target_of t.now }
{
    let word = t[TARGET] as usize;
    if word < HEADER_WORDS {
        return None;
    }
    let offset = (word - HEADER_WORDS) % BUCKET_WORDS;
    if offset % SLOT_WORDS != FIRST_SLOT {
        return None;
    }
    let bucket = (word - HEADER_WORDS) / BUCKET_WORDS;
    let level = home_of(h.state, bucket)?;
    let slot = offset / SLOT_WORDS;
    if !is_taken(h, token(t, bucket), slot) {
        return None;
    }
    Some(Slot {
        level: level.name,
        bucket,
        slot,
    })
}
