// What token words hold and mean: known only here, since form 2 keeps a tag for each taken slot in them.
ghost use Rattle.std.specs.Prelude.{◌≡◌, ◌&&◌, ◌+◌, ◌^◌, ◌≤◌, ◌<◌, eqb, ltb};
ghost use Rattle.rules.specs.Words.{keys_of, token_of, token_number, is_taken, mark, hide as hidden, taken_of, lowest_free, lowest_taken};
ghost use Rattle.rules.specs.Words.{mark_meant, meant as meant_word};
ghost use Rattle.reading.specs.Within.{BucketWithin};
ghost use Rattle.reading.specs.Tokens.{entry_of, TagFor, readable, spread, lowest_mark, rest_of};

use super::forms::has_tags;
use super::places::tag;
use super::slots::{key_at, token};
use rules::{Header, Slot};

// Bits 0 to 3, by which slots are taken in either form.
fn token_number(word: u64) -> u64
    ensures { (result ≡ token_number word) × (result < 16) }
{
    word % 16
}

// "Token bit s is 1 when slot s is taken."
pub fn is_taken(h: Header, word: u64, s: usize) -> bool
    requires { s < 4 }
    ensures { result ≡ is_taken h word s }
{
    (token_number(word) >> s) % 2 == 1
}

// The token word with slot s free: without its bit and its tag. Where slots have no tags, the bit alone is to be cleared.
pub fn hide(h: Header, word: u64, s: usize) -> u64
    requires { s < 4 }
    ensures { result ≡ hidden h word s }
{
    if !has_tags(h) {
        return token_number(word) & (15 - (1u64 << s));
    }
    let rest = word - (word & (1u64 << s));
    rest - (rest & (255u64 << (8 + 8 * s)))
}

// The token word with slot s taken by a key with that tag.
pub fn show(h: Header, word: u64, s: usize, tag: u64) -> u64
    requires { (s < 4) × TagFor h tag }
    ensures { result ≡ hidden h word s + mark s 1 tag }
{
    if !has_tags(h) {
        return token_number(word) | (1u64 << s);
    }
    hide(h, word, s) + ((1u64 << s) + (tag << (8 + 8 * s)))
}

// What slot s of bucket j adds to the word that should stand there.
fn mark_meant(t: &[u64], h: Header, j: usize, word: u64, s: usize) -> u64
    requires { BucketWithin t.now j × (s < 4) }
    ensures { (result ≡ mark_meant h word (keys_of t.now j) s) × (result < 2 ^ 41) }
{
    if is_taken(h, word, s) {
        let x = Slot {
            level: 0,
            bucket: j,
            slot: s,
        };
        let own = tag(h, key_at(t, x));
        return (1u64 << s) + (own << (8 + 8 * s));
    }
    0
}

// The word that should stand in bucket j, by the slots that its token word calls taken and by their keys, which play no part in form 1.
pub fn meant(t: &[u64], h: Header, j: usize, word: u64) -> u64
    requires { BucketWithin t.now j }
    ensures { result ≡ meant_word h word (keys_of t.now j) }
{
    if !has_tags(h) {
        return token_number(word);
    }
    let upper = mark_meant(t, h, j, word, 2) + mark_meant(t, h, j, word, 3);
    mark_meant(t, h, j, word, 0) + (mark_meant(t, h, j, word, 1) + upper)
}

// The slots of bucket j that the lookup of a key with that tag reads, slot s at bit 7 + 8s: "only the slots whose tag fits", found by arithmetic on
// all four tags at once; where slots have no tags, every slot. Bit 7 of a byte plus 127 stays 0 only where the byte is 0.
pub fn slots_to_read(t: &[u64], j: usize, tags: bool, tag: u64) -> u64
    requires { BucketWithin t.now j × (tag < 256) }
    ensures { result ≡ spread (readable tags (token_of t.now j) tag) }
{
    if !tags {
        return 0x8080_8080;
    }
    let unlike = (token(t, j) / 256 % 4294967296) ^ (tag * 0x0101_0101);
    0x8080_8080 - ((((unlike & 0x7f7f_7f7f) + 0x7f7f_7f7f) | unlike) & 0x8080_8080)
}

// The lowest of the slots that are left, and the others.
pub fn lowest_mark(left: u64) -> usize
    ensures { result ≡ lowest_mark left }
{
    u64::trailing_zeros(left) as usize / 8
}

pub fn without_lowest(left: u64) -> u64
    requires { 0 < left }
    ensures { result ≡ rest_of left }
{
    left & (left - 1)
}

// Three tables over the sixteen token numbers, each as the hexadecimal digits of one number: the entry of token number 0 is the lowest
// digit, that of 15 the highest. So an entry is found in registers; an array would be built in memory at each use.
const TAKEN_COUNTS: u64 = 0x4332_3221_3221_2110;

const LOWEST_FREE: u64 = 0x4010_2010_3010_2010;

const LOWEST_TAKEN: u64 = 0x0102_0103_0102_0104;

// A token word's entry in a table.
fn entry(table: u64, word: u64) -> u64
    ensures { result ≡ entry_of table (token_number word) }
{
    (table >> (4 * token_number(word))) % 16
}

// How many slots a token word says are taken.
pub fn taken_count(h: Header, word: u64) -> u64
    ensures { result ≡ taken_of h word }
{
    entry(TAKEN_COUNTS, word)
}

// The "lowest free slot", or 4 where there is none.
pub fn lowest_free(h: Header, word: u64) -> usize
    ensures { (result ≡ lowest_free h word) × (result ≤ 4) }
{
    entry(LOWEST_FREE, word) as usize
}

// "If both are full": whether neither of two token words has a free slot, by one test.
pub fn both_full(h: Header, v: u64, w: u64) -> bool
    ensures { result ≡ eqb (lowest_free h v) 4 && eqb (lowest_free h w) 4 }
{
    token_number(v & w) == 15
}

// The lowest taken slot, or 4 where there is none.
pub fn lowest_taken(h: Header, word: u64) -> usize
    ensures { result ≡ lowest_taken h word }
{
    entry(LOWEST_TAKEN, word) as usize
}

// Whether a slot is taken, which one test tells: late in a growth most interim buckets are empty.
pub fn any_taken(h: Header, word: u64) -> bool
    ensures { result ≡ ltb (lowest_taken h word) 4 }
{
    token_number(word) != 0
}
