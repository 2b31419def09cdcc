// Query: the record of a key, where the key stands, and the number of buckets looked at.
#![tactic(auto)]

pub mod lookup;
mod probing;

ghost use Rattle.std.specs.Prelude.{◌≡◌, length};
ghost use Rattle.rules.specs.Forms.{tagged};
ghost use Rattle.rules.specs.Words.{GoodHeader};
ghost use Rattle.rules.specs.Places.{lookup as lookup_of};
ghost use Rattle.rules.specs.Results.{query_at};
ghost use Rattle.reading.specs.Within.{Standing};
ghost use Rattle.querying.specs.Promises.{Queried};

use lookup::lookup_with;
use reading::forms::has_tags;
use reading::gate::query_gate;
use reading::places::hashes;
use reading::slots::{record_at, spot};
use rules::{Header, Known, Lookup, Missed, Query, Refusal};

// What a lookup tells a query: the record of the slot found, and where it stands.
fn told(t: &[u64], found: Lookup) -> Query
    requires { Standing t.now found }
    ensures { result ≡ query_at t.now found }
{
    match found {
        Lookup::Stands(x, looked) => Ok(Known {
            what: record_at(t, x),
            spot: spot(x),
            looked,
        }),
        Lookup::Absent(searched) => Err(Missed {
            refusal: Refusal::KeyAbsent,
            looked: searched,
        }),
    }
}

// A query of a good table, whose slots have tags or have none: code of its own for each.
fn queried<const TAGS: bool>(t: &[u64], h: Header, key: u64) -> Query
    requires { GoodHeader (length t.now) h × (TAGS ≡ tagged h) }
    ensures { result ≡ query_at t.now (lookup_of t.now h key) }
{
    told(t, lookup_with(t, h, key, hashes(h, key), TAGS))
}

// "Query returns zeros with 5 and the full probe count; with 1 or 3 zeros and count 0." It tells where the lookup found the key.
pub fn query(t: &[u64], key: u64) -> Query
    ensures { Queried t.now key result t.now }
{
    let h = query_gate(t)?;
    if has_tags(h) {
        return queried::<true>(t, h, key);
    }
    queried::<false>(t, h, key)
}
