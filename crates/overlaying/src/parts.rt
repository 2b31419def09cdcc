// The part of whichever table holds the key: words of that table's own memory.
ghost use Rattle.std.specs.Prelude.{◌≡◌, ◌+◌, ◌≤◌, length};
ghost use Rattle.rules.specs.Forms.{tagged};
ghost use Rattle.rules.specs.Words.{GoodHeader};
ghost use Rattle.rules.specs.Places.{lookup as lookup_of};
ghost use Rattle.reading.specs.Within.{Standing};
ghost use Rattle.overlaying.specs.Promises.{PartAt, PartFound, PartOver, Parted};

use querying::lookup::lookup_with;
use reading::forms::has_tags;
use reading::gate::query_gate;
use reading::places::hashes;
use reading::slots::key_word;
use rules::layout::SLOT_WORDS;
use rules::{Header, Lookup};

// "three words of that table and no copy; an empty part with a refusal": so many words, from word `start` on.
fn words_from<'a>(t: &'a [u64], start: usize, size: usize) -> &'a [u64]
    requires { start + size ≤ length t.now }
    ensures { PartAt t.entry start size result }
{
    let end = start + size;
    &t[start..end]
}

// What the older table's lookup leads to. An empty part begins at word 0.
fn older_part<'a>(older: &'a [u64], found: Lookup) -> &'a [u64]
    requires { Standing older.now found }
    ensures { PartFound found older.entry result }
{
    match found {
        Lookup::Stands(x, _) => words_from(older, key_word(x), SLOT_WORDS),
        Lookup::Absent(_) => words_from(older, 0, 0),
    }
}

// As in a query, there is code of its own for tables whose slots have tags.
fn older_part_with<'a, const TAGS: bool>(older: &'a [u64], g: Header, key: u64) -> &'a [u64]
    requires { GoodHeader (length older.now) g × (TAGS ≡ tagged g) }
    ensures { PartFound (lookup_of older.now g key) older.entry result }
{
    older_part(older, lookup_with(older, g, key, hashes(g, key), TAGS))
}

fn part_in_older<'a>(older: &'a [u64], g: Header, key: u64) -> &'a [u64]
    requires { GoodHeader (length older.now) g }
    ensures { PartFound (lookup_of older.now g key) older.entry result }
{
    if has_tags(g) {
        return older_part_with::<true>(older, g, key);
    }
    older_part_with::<false>(older, g, key)
}

// What the newer table's lookup leads to; only where it finds nothing is the older table looked up.
fn newer_part<'a>(
    newer: &'a [u64],
    found: Lookup,
    older: &'a [u64],
    g: Header,
    key: u64,
) -> &'a [u64]
    requires { Standing newer.now found × GoodHeader (length older.now) g }
    ensures { PartOver found (lookup_of older.now g key) newer.entry older.entry result }
{
    match found {
        Lookup::Stands(x, _) => words_from(newer, key_word(x), SLOT_WORDS),
        Lookup::Absent(_) => part_in_older(older, g, key),
    }
}

fn newer_part_with<'a, const TAGS: bool>(
    newer: &'a [u64],
    h: Header,
    older: &'a [u64],
    g: Header,
    key: u64,
) -> &'a [u64]
    requires { GoodHeader (length newer.now) h × GoodHeader (length older.now) g × (TAGS ≡ tagged h) }
    ensures { PartOver (lookup_of newer.now h key) (lookup_of older.now g key) newer.entry older.entry result }
{
    newer_part(
        newer,
        lookup_with(newer, h, key, hashes(h, key), TAGS),
        older,
        g,
        key,
    )
}

// Behind the tests of both.
fn part_in_either<'a>(
    newer: &'a [u64],
    h: Header,
    older: &'a [u64],
    g: Header,
    key: u64,
) -> &'a [u64]
    requires { GoodHeader (length newer.now) h × GoodHeader (length older.now) g }
    ensures { PartOver (lookup_of newer.now h key) (lookup_of older.now g key) newer.entry older.entry result }
{
    if has_tags(h) {
        return newer_part_with::<true>(newer, h, older, g, key);
    }
    newer_part_with::<false>(newer, h, older, g, key)
}

// "The answer is the part of whichever table holds the key, three words of that table and no copy; an empty part with a refusal", which begins at word
// 0 of the table that `asked` names.
pub fn part<'a>(newer: &'a [u64], older: &'a [u64], key: u64) -> &'a [u64]
    ensures { Parted newer.entry older.entry key result newer.now older.now }
{
    let Ok(h) = query_gate(newer) else {
        return words_from(newer, 0, 0);
    };
    let Ok(g) = query_gate(older) else {
        return words_from(older, 0, 0);
    };
    part_in_either(newer, h, older, g, key)
}
