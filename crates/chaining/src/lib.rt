// Document 02, request a): the chain of inlined callers. The records of an address at a depth, then at each smaller one, down to 0.
#![tactic(auto)]

ghost use Rattle.std.specs.Prelude.{◌≡◌, ◌+◌, ◌*◌, ◌/◌, ◌%◌, ◌≤◌, length};
ghost use Rattle.rules.specs.Words.{header_of, GoodHeader};
ghost use Rattle.rules.specs.Chains.{position_good, walk as walk_of, query_of};
ghost use Rattle.listing.specs.Listing.{Room};
ghost use Rattle.chaining.specs.Walks.{put_at, Walked, ChainedAt};
ghost use Rattle.chaining.specs.Promises.{Chained};

use querying::lookup::lookup;
use reading::gate::query_gate;
use reading::header::decode;
use reading::slots::record_at;
use rules::layout::{ADDRESSES, DEPTHS, LARGEST_DEPTH};
use rules::{Chain, Lookup, Missed, Record, Refusal};

// "an address of 2^56 or more, or a depth above 255, gives 16"
fn position_good(address: u64, depth: u64) -> bool
    ensures { result ≡ position_good address depth }
{
    if address < ADDRESSES {
        return depth <= LARGEST_DEPTH;
    }
    false
}

// A depth's record as pair `at` of the lent words, where every smaller depth has one: "The first missing depth gives 5 and nothing is
// written".
fn put_before(records: &mut [u64], at: usize, r: Record, below: bool) -> bool
    requires { Room records.old (at + 1) }
    ensures { (result ≡ below) × (records.new ≡ put_at below at r records.old) }
{
    if below {
        records[2 * at] = r.function;
        records[2 * at + 1] = r.place;
    }
    below
}

// "The walk takes the record of one depth and then does the same for the next smaller one": the depth of a key, its remainder by 256,
// falls by one each call until 0. Answers whether every depth has a record, and adds the buckets looked at to `looked`, of which there are
// at most 6 · 256 in all. Each depth is looked up once; its record is pair `at` of the lent words, those of the smaller depths follow, and
// all are written on the way back.
// A key is handed on in place of an address and a depth, the header is read from the table again, and the table is lent on as a new slice:
// so five depths cost no more than five queries (docs/DECISIONS.md).
fn walk(t: &[u64], key: u64, records: &mut [u64], at: usize, looked: &mut u64) -> bool
    requires { GoodHeader (length t.now) (header_of t.now) × Room records.old (at + key % 256 + 1) × (looked.old + 6 * (key % 256 + 1) ≤ 1536) }
    ensures { Walked (walk_of (query_of t.now (header_of t.now) (key / 256)) (key % 256)) at records.old
        looked.old result records.new looked.new }
{
    let depth = key % DEPTHS;
    let found = lookup(t, decode(t), key);
    match found {
        Lookup::Absent(all) => {
            *looked += all;
            false
        }
        Lookup::Stands(x, n) => {
            *looked += n;
            let r = record_at(t, x);
            if depth == 0 {
                return put_before(records, at, r, true);
            }
            let below = walk(&*t, key - 1, records, at + 1, looked);
            put_before(records, at, r, below)
        }
    }
}

// Behind the tests 1 and 3: "16 before 15".
fn chain_at(t: &[u64], address: u64, depth: u64, records: &mut [u64]) -> Chain
    requires { GoodHeader (length t.now) (header_of t.now) }
    ensures { ChainedAt t.now address depth records.old result records.new }
{
    if !position_good(address, depth) {
        return Err(Missed::from(Refusal::BadPosition));
    }
    if records.len() < 2 * (depth as usize + 1) {
        return Err(Missed::from(Refusal::ShortRecords));
    }
    let mut looked = 0;
    if walk(t, address * DEPTHS + depth, records, 0, &mut looked) {
        return Ok(looked);
    }
    Err(Missed {
        refusal: Refusal::KeyAbsent,
        looked,
    })
}

pub fn chain(t: &[u64], address: u64, depth: u64, records: &mut [u64]) -> Chain
    ensures { Chained t.now address depth records.old result t.now records.new }
{
    query_gate(t)?;
    chain_at(t, address, depth, records)
}
