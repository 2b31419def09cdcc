// Insert, update and delete: each reads the table and lists its stores.
#![tactic(auto)]

ghost use Rattle.std.specs.Prelude.{◌≡◌, ◌^◌, ◌≤◌, ◌<◌, length};
ghost use Rattle.rules.specs.Forms.{tag_of, tagged};
ghost use Rattle.rules.specs.Words.{GoodHeader};
ghost use Rattle.rules.specs.Places.{hashes_of, lookup as lookup_of};
ghost use Rattle.rules.specs.Stores.{placing_stores, update_stores};
ghost use Rattle.rules.specs.Calls.{insert_in, update_in, delete_in};
ghost use Rattle.rules.specs.Calls.{insert as insert_call, update as update_call, delete as delete_call};
ghost use Rattle.rules.specs.declared.Lookup.TheVariants.{Absent};
ghost use Rattle.rules.specs.declared.Placing.TheVariants.{Move as move};
ghost use Rattle.reading.specs.Gates.{Headed};
ghost use Rattle.reading.specs.Within.{SlotWithin, PlacingWithin};
ghost use Rattle.listing.specs.Listing.{Room, Run, Takes};
ghost use Rattle.listing.specs.Promises.{Changed, Did};
ghost use Rattle.changing.specs.Founds.{has_found};

use listing::{clear, list_placing, log, put, redo};
use placing::placing;
use placing::room::free_slot;
use querying::lookup::{lookup, lookup_by, lookup_with};
use reading::forms::has_tags;
use reading::gate::change_gate;
use reading::places::hashes;
use reading::slots::token;
use reading::tokens::hide;
use rules::{Change, Hashes, Header, Lookup, Place, Placing, Record, Refusal, Slot};

// "delete | token cleared"
fn delete_at(t: &[u64], list: &mut [u64], h: Header, key: u64) -> Change
    requires { (20 ≤ length list.old) × GoodHeader (length t.now) h }
    ensures { Did (delete_in t.now h (lookup_of t.now h key)) list.old result list.new }
{
    let found = lookup(t, h, key);
    match found {
        Lookup::Absent(_) => Err(Refusal::KeyAbsent),
        Lookup::Stands(x, _) => {
            let cleared = clear(list, 0, h, token(t, x.bucket), x);
            Ok(cleared as u64)
        }
    }
}

// After the tests 1, 2 and 3: "5 | key absent".
pub fn delete(t: &[u64], list: &mut [u64], key: u64) -> Change
    ensures { Changed (delete_call key) t.now list.old result t.now list.new }
{
    let h = change_gate(t, list.len())?;
    delete_at(t, list, h, key)
}

// "update, bucket has a free slot | three words to its lowest free slot; one token store that sets it and clears the old";
// "update, bucket full | words 6, 7, 8; flag 1; function, place in the slot; flag 0"
fn renewed(t: &[u64], list: &mut [u64], h: Header, x: Slot, key: u64, tag: u64, r: Record) -> usize
    requires { Room list.old 7 × (length t.now < 2 ^ 32) × SlotWithin t.now x × (tag ≡ tag_of h key) }
    ensures { Run result list.old list.new (update_stores t.now h x key r) × (result ≤ 7) }
{
    let free = free_slot(
        t,
        h,
        Place {
            level: x.level,
            bucket: x.bucket,
        },
    );
    let Some(y) = free else {
        let at = log(list, 0, x, r);
        return redo(list, at, x, r);
    };
    put(
        list,
        0,
        h,
        hide(h, token(t, x.bucket), x.slot),
        y,
        key,
        tag,
        r,
    )
}

// "Update works in whichever level the key stands."
fn update_at(t: &[u64], list: &mut [u64], h: Header, key: u64, r: Record) -> Change
    requires { (20 ≤ length list.old) × GoodHeader (length t.now) h }
    ensures { Did (update_in t.now h (lookup_of t.now h key) key r) list.old result list.new }
{
    let hash = hashes(h, key);
    let found = lookup_by(t, h, key, hash);
    match found {
        Lookup::Absent(_) => Err(Refusal::KeyAbsent),
        Lookup::Stands(x, _) => {
            let stores = renewed(t, list, h, x, key, hash.tag, r);
            Ok(stores as u64)
        }
    }
}

// After the tests 1, 2 and 3: "5 | key absent".
pub fn update(t: &[u64], list: &mut [u64], key: u64, r: Record) -> Change
    ensures { Changed (update_call key r) t.now list.old result t.now list.new }
{
    let h = change_gate(t, list.len())?;
    update_at(t, list, h, key, r)
}

// "insert with move": the new item takes the slot that the move frees.
fn insert_by_move(
    t: &[u64],
    list: &mut [u64],
    h: Header,
    from: Slot,
    to: Slot,
    key: u64,
    tag: u64,
    r: Record,
) -> usize
    requires { Room list.old 9 × (length t.now < 2 ^ 32) × PlacingWithin t.now (move from to) × (tag ≡ tag_of h key) }
    ensures { Run result list.old list.new (placing_stores t.now h (move from to) key r) × (result ≤ 9) }
{
    list_placing(t, list, h, Placing::Move(from, to), from, key, tag, r)
}

// The stores of a placing by which a new item takes slot y. Free slots are what there mostly is: their four stores are written here,
// and only a move is handed on.
fn insert_stores(
    t: &[u64],
    list: &mut [u64],
    h: Header,
    p: Placing,
    y: Slot,
    key: u64,
    tag: u64,
    r: Record,
) -> usize
    requires { Room list.old 9 × (length t.now < 2 ^ 32) × Takes t.now p y × (tag ≡ tag_of h key) }
    ensures { Run result list.old list.new (placing_stores t.now h p key r) × (result ≤ 9) }
{
    if let Placing::Move(from, to) = p {
        return insert_by_move(t, list, h, from, to, key, tag, r);
    }
    put(list, 0, h, token(t, y.bucket), y, key, tag, r)
}

// "So a placing is a free slot, a move of one slot to another, or nothing." The new item takes slot y, the free one or the one
// that the move frees; "Otherwise there is no place". How many buckets the lookup looked at before it found the key absent plays no
// part: the promise says 0.
fn insert_absent(t: &[u64], list: &mut [u64], h: Header, key: u64, x: Hashes, r: Record) -> Change
    requires { (20 ≤ length list.old) × Headed t.now h × (x ≡ hashes_of h key) }
    ensures { Did (insert_in t.now h (Absent 0) key r) list.old result list.new }
{
    let p = placing(t, h, key, x);
    let (Placing::Free(y) | Placing::Move(y, _)) = p else {
        return Err(Refusal::NoPlace);
    };
    let n = insert_stores(t, list, h, p, y, key, x.tag, r);
    Ok(n as u64)
}

// What is known of a key before it is placed: its hashes, and whether it stands.
#[derive(Clone, Copy)]
pub struct Sought {
    pub hashes: Hashes,
    pub stands: bool,
}

// Whether a lookup has found its key.
fn has_found(found: Lookup) -> bool
    ensures { result ≡ has_found found }
{
    match found {
        Lookup::Stands(_, _) => true,
        Lookup::Absent(_) => false,
    }
}

// The key is hashed for each kind of table, which the compiler knows: so an insert in a table without tags mixes nothing.
fn look_by<const TAGS: bool>(t: &[u64], h: Header, key: u64) -> Sought
    requires { GoodHeader (length t.now) h × (TAGS ≡ tagged h) }
    ensures { (result.hashes ≡ hashes_of h key) × (result.stands ≡ has_found (lookup_of t.now h key)) }
{
    let hashes = hashes(h, key);
    let found = lookup_with(t, h, key, hashes, TAGS);
    Sought {
        hashes,
        stands: has_found(found),
    }
}

fn look_for(t: &[u64], h: Header, key: u64) -> Sought
    requires { GoodHeader (length t.now) h }
    ensures { (result.hashes ≡ hashes_of h key) × (result.stands ≡ has_found (lookup_of t.now h key)) }
{
    if has_tags(h) {
        return look_by::<true>(t, h, key);
    }
    look_by::<false>(t, h, key)
}

// "for insert 4 before 6"
fn insert_at(t: &[u64], list: &mut [u64], h: Header, key: u64, r: Record) -> Change
    requires { (20 ≤ length list.old) × Headed t.now h }
    ensures { Did (insert_in t.now h (lookup_of t.now h key) key r) list.old result list.new }
{
    let known = look_for(t, h, key);
    if known.stands {
        return Err(Refusal::KeyPresent);
    }
    let x = known.hashes;
    insert_absent(t, list, h, key, x, r)
}

// After the tests 1, 2 and 3: "4 | key present", "6 | no place".
pub fn insert(t: &[u64], list: &mut [u64], key: u64, r: Record) -> Change
    ensures { Changed (insert_call key r) t.now list.old result t.now list.new }
{
    let h = change_gate(t, list.len())?;
    insert_at(t, list, h, key, r)
}
