// Document 02, request h): a sound table at rest is converted to the other form in a second lent table. The source is only read.
#![tactic(auto)]

ghost use Rattle.std.specs.Prelude.{◌≡◌, true, ◌^◌, ◌≤◌, ◌<◌, length};
ghost use Rattle.rules.specs.Forms.{tag_of};
ghost use Rattle.rules.specs.Words.{GoodHeader, at_rest, slots_in, slots_of, slots_in_use, token_of};
ghost use Rattle.rules.specs.Placing.{placing as placing_of};
ghost use Rattle.rules.specs.Stores.{put_stores, made};
ghost use Rattle.rules.specs.Conversions.{other_form, fresh_for};
ghost use Rattle.rules.specs.Soundness.{SoundTable};
ghost use Rattle.reading.specs.Gates.{Headed};
ghost use Rattle.reading.specs.Within.{BucketWithin, SlotWithin};
ghost use Rattle.listing.specs.Listing.{Takes};
ghost use Rattle.converting.specs.Fillings.{items_in, Unsought, PutIn, MayTake, Fills, ConvertedAt, ConvertsAt};
ghost use Rattle.converting.specs.Promises.{Converts};

use listing::list_placing;
use making::{create, make};
use placing::placing;
use reading::gate::header_gate;
use reading::header::decode;
use reading::levels::{level_count, nth_level};
use reading::places::hashes;
use reading::slots::{key_at, key_word, record_at, token, token_word};
use reading::tokens::{is_taken, show};
use recovering::finding;
use rules::{
    Conversion, Finding, Header, Level, Place, Placing, Record, Refusal, Slot, Unconverted,
};
use words::power;

// Whether every item so far has found its place, or the key of the one that has not.
pub type Progress = Result<(), u64>;

fn other_form(form: u64) -> u64
    ensures { result ≡ other_form form }
{
    if form == 1 {
        return 2;
    }
    1
}

// "create the other form there with the same c, k and multipliers". Creation does not refuse them: they are those of a good header at rest.
fn create_fresh(second: &mut [u64], h: Header)
    requires { GoodHeader (length second.old) h × (at_rest h.state ≡ true) }
    ensures { second.new ≡ fresh_for h }
{
    let state = h.state;
    let _ = create(second, other_form(h.form), h.c, state.k, h.mul1, h.mul2);
}

// An item in a free slot: its three words and its token, stored at once. A table that is being made need not survive a cut.
fn put_free(second: &mut [u64], to: Header, y: Slot, key: u64, tag: u64, r: Record)
    requires { (length second.old < 2 ^ 32) × SlotWithin second.old y × (tag ≡ tag_of to key) }
    ensures { second.new ≡ made second.old (put_stores to (token_of second.old y.bucket) y key r) }
{
    let word = token(second, y.bucket);
    let at = key_word(y);
    second[at] = key;
    second[at + 1] = r.function;
    second[at + 2] = r.place;
    second[token_word(y.bucket)] = show(to, word, y.slot, tag);
}

// An item that takes slot y, from which another moves. There are nine stores, so they are listed, in pairs of this function's own, and made.
fn put_by_move(second: &mut [u64], to: Header, p: Placing, y: Slot, key: u64, tag: u64, r: Record)
    requires { Unsought second.old to key r × (p ≡ placing_of second.old to key) × Takes second.old p y × (tag ≡ tag_of to key) }
    ensures { PutIn second.old key r (Ok tt) second.new }
{
    let mut pairs = [0u64; 20];
    let stores = list_placing(second, &mut pairs, to, p, y, key, tag, r);
    let _ = make(second, &pairs, stores as u64);
}

// An item whose key the second table has not: so it need not be looked up, and only its place is sought.
fn put_item(second: &mut [u64], to: Header, key: u64, r: Record) -> Progress
    requires { Unsought second.old to key r }
    ensures { PutIn second.old key r result second.new }
{
    let x = hashes(to, key);
    let p = placing(second, to, key, x);
    match p {
        Placing::Free(y) => {
            put_free(second, to, y, key, x.tag, r);
            Ok(())
        }
        Placing::Move(y, _) => {
            put_by_move(second, to, p, y, key, x.tag, r);
            Ok(())
        }
        Placing::Nowhere => Err(key),
    }
}

fn fill_bucket(t: &[u64], h: Header, p: Place, second: &mut [u64], to: Header) -> Progress
    requires { BucketWithin t.now p.bucket × MayTake t.now to second.old (items_in t.now h (slots_in p)) }
    ensures { Fills t.now second.old (items_in t.now h (slots_in p)) result second.new }
{
    let word = token(t, p.bucket);
    for s in 0..4 {
        if is_taken(h, word, s) {
            let x = Slot {
                level: p.level,
                bucket: p.bucket,
                slot: s,
            };
            put_item(second, to, key_at(t, x), record_at(t, x))?;
        }
    }
    Ok(())
}

fn fill_level(t: &[u64], h: Header, l: Level, second: &mut [u64], to: Header) -> Progress
    requires { GoodHeader (length t.now) h × (l.exponent ≤ h.c) × MayTake t.now to second.old (items_in t.now h (slots_of l)) }
    ensures { Fills t.now second.old (items_in t.now h (slots_of l)) result second.new }
{
    let size = power(l.exponent);
    for i in 0..size {
        let p = Place {
            level: l.name,
            bucket: size - 1 + i,
        };
        fill_bucket(t, h, p, second, to)?;
    }
    Ok(())
}

// "insert every item in probe-level order, bucket and slot ascending"
fn fill_table(t: &[u64], h: Header, second: &mut [u64], to: Header) -> Progress
    requires { GoodHeader (length t.now) h × MayTake t.now to second.old (items_in t.now h (slots_in_use h.state)) }
    ensures { Fills t.now second.old (items_in t.now h (slots_in_use h.state)) result second.new }
{
    let levels = level_count(h.state);
    for n in 0..levels {
        fill_level(t, h, nth_level(h.state, n), second, to)?;
    }
    Ok(())
}

// "If an item finds no place, answer 6 with its key and leave the second table freshly created"
fn convert_sound(t: &[u64], h: Header, second: &mut [u64]) -> Conversion
    requires { Headed t.now h × SoundTable t.now × (at_rest h.state ≡ true) × (length second.old ≡ length t.now) }
    ensures { ConvertedAt t.now h result second.new }
{
    create_fresh(second, h);
    let to = decode(second);
    match fill_table(t, h, second, to) {
        Ok(()) => Ok(()),
        Err(key) => {
            create_fresh(second, h);
            Err(Unconverted::Stuck(key))
        }
    }
}

// Behind test 1: "A source that is not sound gives 12, one in phase 1 or 2 gives 7, a second table of another length 13". What recovery would
// mend is not sound: "A set flag is 12 here, not 3."
fn convert_at(t: &[u64], h: Header, second: &mut [u64]) -> Conversion
    requires { Headed t.now h }
    ensures { ConvertsAt t.now second.old result second.new }
{
    let Finding::Sound = finding(t, h) else {
        return Err(Unconverted::Rejected(Refusal::NoKind));
    };
    if !h.state.at_rest() {
        return Err(Unconverted::Rejected(Refusal::AlreadyResizing));
    }
    if second.len() != t.len() {
        return Err(Unconverted::Rejected(Refusal::BadCreation));
    }
    convert_sound(t, h, second)
}

pub fn convert(t: &[u64], second: &mut [u64]) -> Conversion
    ensures { Converts t.now second.old result t.now second.new }
{
    let h = header_gate(t)?;
    convert_at(t, h, second)
}
