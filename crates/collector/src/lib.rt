// The calls for a collector written in C or Rust. Each is the call itself, with the documents' number as its result, "0 is success", and
// the values that go with it in words that the caller lends.
#![tactic(auto)]

ghost use Rattle.std.specs.Prelude.{◌≡◌, [], ◌∷◌};
ghost use Rattle.rules.specs.Answers.{change_means};
ghost use Rattle.rules.specs.Calls.{insert as insert_call, update as update_call, delete as delete_call, begin as begin_call};
ghost use Rattle.rules.specs.Calls.{shrink as shrink_call, back as back_call};
ghost use Rattle.rules.specs.Calls.{end as end_call, recover as recover_call};
ghost use Rattle.rules.specs.Calls.{step as step_call};
ghost use Rattle.querying.specs.Promises.{QueriedBy};
ghost use Rattle.chaining.specs.Promises.{ChainedBy};
ghost use Rattle.making.specs.Promises.{CreatedBy, MadeBy};
ghost use Rattle.converting.specs.Promises.{ConvertsBy};
ghost use Rattle.overlaying.specs.Promises.{AsksBy, Parted};
ghost use Rattle.numbering.specs.Told.{told, told_with};
ghost use Rattle.collector.specs.Reported.{Reported, ReportedFrom};

use chaining::chain;
use changing::{delete, insert, update};
use converting::convert;
use growing::{back, begin, end, shrink, step_from};
use making::{create, make};
use numbering::{conversion_words, number, query_words, side_number, verdict_number};
use overlaying::asked;
use overlaying::parts::part;
use querying::query;
use recovering::recover;
use rules::{Change, Record};

#[unsafe(no_mangle)]
pub extern "C" fn ragansils_create(
    table: &mut [u64],
    form: u64,
    c: u64,
    k: u64,
    mul1: u64,
    mul2: u64,
) -> u64
    ensures { CreatedBy table.old form c k mul1 mul2 (told result) table.new }
{
    verdict_number(create(table, form, c, k, mul1, mul2))
}

// Function, place and the number of buckets looked at; the word index of the key found, and its level.
#[unsafe(no_mangle)]
pub extern "C" fn ragansils_query(table: &[u64], key: u64, answer: &mut [u64; 5]) -> u64
    ensures { QueriedBy table.now key (told_with result answer.new) table.now }
{
    let found = query_words(query(table, key));
    *answer = [
        found.function,
        found.place,
        found.buckets,
        found.word,
        found.level,
    ];
    found.number
}

// The records of the depths go to the words lent for them, the number of buckets looked at to a word of its own.
#[unsafe(no_mangle)]
pub extern "C" fn ragansils_chain(
    table: &[u64],
    address: u64,
    depth: u64,
    records: &mut [u64],
    buckets: &mut u64,
) -> u64
    ensures { ChainedBy table.now address depth records.old (told_with result (buckets.new ∷ [])) table.now
        records.new }
{
    match chain(table, address, depth, records) {
        Ok(looked) => {
            *buckets = looked;
            0
        }
        Err(missed) => {
            *buckets = missed.looked;
            number(missed.refusal)
        }
    }
}

// A change's number, and its stores in the word lent for them: "A refusal .. reports 0 stores."
fn report(change: Change, stores: &mut u64) -> u64
    ensures { told_with result (stores.new ∷ []) ≡ change_means change }
{
    match change {
        Ok(count) => {
            *stores = count;
            0
        }
        Err(refusal) => {
            *stores = 0;
            number(refusal)
        }
    }
}

#[unsafe(no_mangle)]
pub extern "C" fn ragansils_insert(
    table: &[u64],
    key: u64,
    function: u64,
    place: u64,
    list: &mut [u64],
    stores: &mut u64,
) -> u64
    ensures { Reported (insert_call key (record { function = function; place = place })) table.now list.old result
        stores.new table.now list.new }
{
    report(insert(table, list, key, Record { function, place }), stores)
}

#[unsafe(no_mangle)]
pub extern "C" fn ragansils_update(
    table: &[u64],
    key: u64,
    function: u64,
    place: u64,
    list: &mut [u64],
    stores: &mut u64,
) -> u64
    ensures { Reported (update_call key (record { function = function; place = place })) table.now list.old result
        stores.new table.now list.new }
{
    report(update(table, list, key, Record { function, place }), stores)
}

#[unsafe(no_mangle)]
pub extern "C" fn ragansils_delete(
    table: &[u64],
    key: u64,
    list: &mut [u64],
    stores: &mut u64,
) -> u64
    ensures { Reported (delete_call key) table.now list.old result stores.new table.now list.new }
{
    report(delete(table, list, key), stores)
}

#[unsafe(no_mangle)]
pub extern "C" fn ragansils_begin(table: &[u64], list: &mut [u64], stores: &mut u64) -> u64
    ensures { Reported begin_call table.now list.old result stores.new table.now list.new }
{
    report(begin(table, list), stores)
}

#[unsafe(no_mangle)]
pub extern "C" fn ragansils_shrink(table: &[u64], list: &mut [u64], stores: &mut u64) -> u64
    ensures { Reported shrink_call table.now list.old result stores.new table.now list.new }
{
    report(shrink(table, list), stores)
}

#[unsafe(no_mangle)]
pub extern "C" fn ragansils_back(table: &[u64], list: &mut [u64], stores: &mut u64) -> u64
    ensures { Reported back_call table.now list.old result stores.new table.now list.new }
{
    report(back(table, list), stores)
}

// A step's number; its stores, and the bucket to go on from, in the words lent for them. C is not told the placing, and both steps come
// here: so the compiler need not keep it.
fn report_step(table: &[u64], list: &mut [u64], from: u64, answer: &mut [u64; 2]) -> u64
    ensures { ReportedFrom from table.now list.old result answer.new table.now list.new }
{
    let taken = step_from(table, list, from);
    match taken.stepped.change {
        Ok(stores) => {
            *answer = [stores, taken.bucket];
            0
        }
        Err(refusal) => {
            *answer = [0, taken.bucket];
            number(refusal)
        }
    }
}

#[unsafe(no_mangle)]
pub extern "C" fn ragansils_step(table: &[u64], list: &mut [u64], stores: &mut u64) -> u64
    ensures { Reported step_call table.now list.old result stores.new table.now list.new }
{
    let mut answer: [u64; 2] = [0, 0];
    let told = report_step(table, list, 0, &mut answer);
    *stores = answer[0];
    told
}

#[unsafe(no_mangle)]
pub extern "C" fn ragansils_step_from(
    table: &[u64],
    from: u64,
    list: &mut [u64],
    answer: &mut [u64; 2],
) -> u64
    ensures { ReportedFrom from table.now list.old result answer.new table.now list.new }
{
    report_step(table, list, from, answer)
}

#[unsafe(no_mangle)]
pub extern "C" fn ragansils_end(table: &[u64], list: &mut [u64], stores: &mut u64) -> u64
    ensures { Reported end_call table.now list.old result stores.new table.now list.new }
{
    report(end(table, list), stores)
}

#[unsafe(no_mangle)]
pub extern "C" fn ragansils_recover(table: &[u64], list: &mut [u64], stores: &mut u64) -> u64
    ensures { Reported recover_call table.now list.old result stores.new table.now list.new }
{
    report(recover(table, list), stores)
}

#[unsafe(no_mangle)]
pub extern "C" fn ragansils_make(table: &mut [u64], list: &[u64], n: u64) -> u64
    ensures { MadeBy table.old list.now n (told result) table.new list.now }
{
    verdict_number(make(table, list, n))
}

// The second table is the other form of the first, and the first is only read. The key of an item that found no place goes to a word of its own,
// which is 0 with every other answer.
#[unsafe(no_mangle)]
pub extern "C" fn ragansils_convert(table: &[u64], second: &mut [u64], key: &mut u64) -> u64
    ensures { ConvertsBy table.now second.old (told_with result (key.new ∷ [])) table.now
        second.new }
{
    let answer = conversion_words(convert(table, second));
    *key = answer.key;
    answer.number
}

// Two tables asked as one. The name of the table that is told of, 0 the newer and 1 the older, and the number of buckets looked at.
#[unsafe(no_mangle)]
pub extern "C" fn ragansils_asked(
    newer: &[u64],
    older: &[u64],
    key: u64,
    answer: &mut [u64; 2],
) -> u64
    ensures { AsksBy newer.now older.now key (told_with result answer.new) newer.now older.now }
{
    match asked(newer, older, key) {
        Ok(hit) => {
            *answer = [side_number(hit.side), hit.looked];
            0
        }
        Err(miss) => {
            *answer = [side_number(miss.side), miss.looked];
            number(miss.refusal)
        }
    }
}

// The part of whichever table holds the key: a pointer into that table, and 3; with a refusal one to the start of the table that is told of, and 0.
#[unsafe(no_mangle)]
pub extern "C" fn ragansils_part<'a, 'b>(
    newer: &'a [u64],
    older: &'a [u64],
    key: u64,
    out: &'b mut &'a [u64],
)
    ensures { Parted newer.entry older.entry key out.new newer.now older.now }
{
    *out = part(newer, older, key);
}
