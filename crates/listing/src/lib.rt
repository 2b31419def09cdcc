// Writing stores to a lent list, in order, as pairs: word index, new word. Each function writes from pair `at` on and
// answers the next free pair.
#![tactic(auto)]

ghost use Rattle.std.specs.Prelude.{◌≡◌, [], ◌∷◌, ◌+◌, ◌^◌, ◌≤◌, ◌<◌, length};
ghost use Rattle.rules.specs.Forms.{tag_of};
ghost use Rattle.rules.specs.Stores.{put_stores, clear_stores, move_stores, placing_stores, redo_stores, log_stores};
ghost use Rattle.reading.specs.Within.{SlotWithin};
ghost use Rattle.listing.specs.Listing.{Room, listed_at, Run, Addressed, Takes};

use reading::places::tag;
use reading::slots::{key_at, key_word, record_at, token, token_word};
use reading::tokens::{hide, show};
use rules::layout::{FLAG, LOGGED_FUNCTION, LOGGED_PLACE, TARGET};
use rules::{Header, Placing, Record, Slot};

// "pairs: word index, new word"
pub fn store(list: &mut [u64], at: usize, index: usize, word: u64) -> usize
    requires { Room list.old (at + 1) }
    ensures { (result ≡ at + 1) × (list.new ≡ listed_at list.old at ((index, word) ∷ [])) }
{
    list[2 * at] = index as u64;
    list[2 * at + 1] = word;
    at + 1
}

// "key, function, place, token", where the bucket's token word is `word`, and `tag` is the key's tag, which whoever asks has already
pub fn put(
    list: &mut [u64],
    at: usize,
    h: Header,
    word: u64,
    x: Slot,
    key: u64,
    tag: u64,
    r: Record,
) -> usize
    requires { Room list.old (at + 4) × Addressed x × (tag ≡ tag_of h key) }
    ensures { (result ≡ at + 4) × (list.new ≡ listed_at list.old at (put_stores h word x key r)) }
{
    let first = key_word(x);
    let last = token_word(x.bucket);
    let shown = show(h, word, x.slot, tag);
    let second = store(list, at, first, key);
    let third = store(list, second, first + 1, r.function);
    let fourth = store(list, third, first + 2, r.place);
    store(list, fourth, last, shown)
}

// "token cleared", where the bucket's token word is `word`
pub fn clear(list: &mut [u64], at: usize, h: Header, word: u64, x: Slot) -> usize
    requires { Room list.old (at + 1) × Addressed x }
    ensures { (result ≡ at + 1) × (list.new ≡ listed_at list.old at (clear_stores h word x)) }
{
    store(list, at, token_word(x.bucket), hide(h, word, x.slot))
}

// "function, place in the slot; flag 0"
pub fn redo(list: &mut [u64], at: usize, x: Slot, r: Record) -> usize
    requires { Room list.old (at + 3) × Addressed x }
    ensures { (result ≡ at + 3) × (list.new ≡ listed_at list.old at (redo_stores x r)) }
{
    let key = key_word(x);
    let second = store(list, at, key + 1, r.function);
    let third = store(list, second, key + 2, r.place);
    store(list, third, FLAG, 0)
}

// "words 6, 7, 8; flag 1", where "Word 6 holds the index of the slot's key word."
pub fn log(list: &mut [u64], at: usize, x: Slot, r: Record) -> usize
    requires { Room list.old (at + 4) × Addressed x }
    ensures { (result ≡ at + 4) × (list.new ≡ listed_at list.old at (log_stores x r)) }
{
    let second = store(list, at, TARGET, key_word(x) as u64);
    let third = store(list, second, LOGGED_FUNCTION, r.function);
    let fourth = store(list, third, LOGGED_PLACE, r.place);
    store(list, fourth, FLAG, 1)
}

// A move: "the item's three words and token at its new slot; old token cleared"
fn moved(t: &[u64], list: &mut [u64], h: Header, from: Slot, to: Slot) -> usize
    requires { Room list.old 5 × (length t.now < 2 ^ 32) × SlotWithin t.now from × SlotWithin t.now to }
    ensures { (result ≡ 5) × (list.new ≡ listed_at list.old 0 (move_stores t.now h from to)) }
{
    let key = key_at(t, from);
    let record = record_at(t, from);
    let word = token(t, to.bucket);
    let copied = put(list, 0, h, word, to, key, tag(h, key), record);
    let cleared = clear(list, copied, h, token(t, from.bucket), from);
    cleared
}

// The stores of a placing by which a key with that tag, and its record, take slot x: a put, or "a move of one slot to another" and a put in
// the slot that it freed.
pub fn list_placing(
    t: &[u64],
    list: &mut [u64],
    h: Header,
    p: Placing,
    x: Slot,
    key: u64,
    tag: u64,
    r: Record,
) -> usize
    requires { Room list.old 9 × (length t.now < 2 ^ 32) × Takes t.now p x × (tag ≡ tag_of h key) }
    ensures { Run result list.old list.new (placing_stores t.now h p key r) × (result ≤ 9) }
{
    let word = token(t, x.bucket);
    if let Placing::Move(from, to) = p {
        let at = moved(t, list, h, from, to);
        return put(list, at, h, hide(h, word, x.slot), x, key, tag, r);
    }
    put(list, 0, h, word, x, key, tag, r)
}
