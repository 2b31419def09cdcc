// The lookup of a key: the one search that query, chain, insert, update and delete rest on.
ghost use Rattle.std.specs.Prelude.{◌≡◌, length};
ghost use Rattle.rules.specs.Forms.{tagged, tag_of};
ghost use Rattle.rules.specs.Words.{GoodHeader};
ghost use Rattle.rules.specs.Places.{hashes_of, probes, hit_in, seek, lookup as lookup_of};
ghost use Rattle.rules.specs.Answers.{LookupTells};
ghost use Rattle.reading.specs.Within.{Standing};

use super::probing::{is_fresh, nth_place, place_count};
use reading::forms::has_tags;
use reading::places::hashes;
use reading::slots::{key_at, token};
use reading::tokens::{is_taken, lowest_mark, slots_to_read, without_lowest};
use rules::{Hashes, Header, Lookup, Slot};

// "A query stops at the first taken slot with the key. Its probe count is the number of buckets looked at up to and
// including that one, or all of them when the key is absent." "A form 2 query reads only the slots whose tag fits." A key is compared where it
// lies, and then its token bit tested. Whether there are tags is a parameter and no const parameter: with one, as was tried, the compiler unrolls less, and a
// query of form 2 takes 14 to 26 in a hundred instructions more.
fn find(t: &[u64], h: Header, key: u64, x: Hashes, tags: bool) -> Lookup
    requires { GoodHeader (length t.now) h × (x.tag ≡ tag_of h key) × (tags ≡ tagged h) }
    ensures { result ≡ seek (hit_in t.now h key) 0 (probes h.state x) }
{
    let state = h.state;
    let own = x.tag;
    let n = place_count(state);
    let mut answer = Lookup::Absent(0);
    let mut looked = 0;
    let mut last = 0;
    'search: for i in 0..n {
        let p = nth_place(state, x, i);
        if is_fresh(i, p.bucket, last) {
            looked += 1;
            answer = Lookup::Absent(looked);
            let mut left = slots_to_read(t, p.bucket, tags, own);
            while left != 0 {
                let at = Slot {
                    level: p.level,
                    bucket: p.bucket,
                    slot: lowest_mark(left),
                };
                if key_at(t, at) == key {
                    if is_taken(h, token(t, p.bucket), at.slot) {
                        answer = Lookup::Stands(at, looked);
                        break 'search;
                    }
                }
                left = without_lowest(left);
            }
        }
        last = p.bucket;
    }
    answer
}

// The lookup of a key whose hashes are known, in a table whose slots have tags or have none. Callers that pass a constant have the compiler make a
// search of its own for each.
pub fn lookup_with(t: &[u64], h: Header, key: u64, x: Hashes, tags: bool) -> Lookup
    requires { GoodHeader (length t.now) h × (x ≡ hashes_of h key) × (tags ≡ tagged h) }
    ensures { LookupTells result (lookup_of t.now h key) × Standing t.now result }
{
    find(t, h, key, x, tags)
}

// The lookup of a key whose hashes are known.
pub fn lookup_by(t: &[u64], h: Header, key: u64, x: Hashes) -> Lookup
    requires { GoodHeader (length t.now) h × (x ≡ hashes_of h key) }
    ensures { LookupTells result (lookup_of t.now h key) × Standing t.now result }
{
    if has_tags(h) {
        return lookup_with(t, h, key, x, true);
    }
    lookup_with(t, h, key, x, false)
}

pub fn lookup(t: &[u64], h: Header, key: u64) -> Lookup
    requires { GoodHeader (length t.now) h }
    ensures { LookupTells result (lookup_of t.now h key) × Standing t.now result }
{
    lookup_by(t, h, key, hashes(h, key))
}
