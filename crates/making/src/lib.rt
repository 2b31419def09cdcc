// The two calls that write the table. "A changing call only reads the table": it lists its stores, and make makes them.
#![tactic(auto)]

ghost use Rattle.std.specs.Prelude.{◌≡◌, true, ◌*◌, ◌≤◌, length, replicate};
ghost use Rattle.rules.specs.Choice.{all};
ghost use Rattle.rules.specs.Stores.{pairs, made};
ghost use Rattle.rules.specs.Results.{create_tests};
ghost use Rattle.making.specs.Promises.{Created, Made};
ghost use Rattle.making.specs.Indexes.{inside};

use reading::forms::form_good;
use reading::header::words_for;
use rules::layout::{CAPACITY, FORM, MULTIPLIER1, MULTIPLIER2, STATE};
use rules::{Refusal, Verdict};

// "13 | c, first k (1 to c), length or a multiplier bad"; or the form. c is tested before the length: the size of a table is computed only
// where it fits.
fn creation_good(size: usize, form: u64, c: u64, k: u64, mul1: u64, mul2: u64) -> bool
    ensures { result ≡ all (create_tests size form c k mul1 mul2) }
{
    if !form_good(form) {
        return false;
    }
    if c < 1 {
        return false;
    }
    if 20 < c {
        return false;
    }
    if k < 1 {
        return false;
    }
    if c < k {
        return false;
    }
    if size != words_for(c) {
        return false;
    }
    if mul1 % 2 != 1 {
        return false;
    }
    mul2 % 2 == 1
}

fn zero(t: &mut [u64])
    ensures { t.new ≡ replicate (length t.old) 0 }
{
    t.fill(0);
}

// "Creation zeroes all words and writes the header." At rest the state word is k.
pub fn create(t: &mut [u64], form: u64, c: u64, k: u64, mul1: u64, mul2: u64) -> Verdict
    ensures { Created t.old form c k mul1 mul2 result t.new }
{
    if !creation_good(t.len(), form, c, k, mul1, mul2) {
        return Err(Refusal::BadCreation);
    }
    zero(t);
    t[FORM] = form;
    t[CAPACITY] = c;
    t[MULTIPLIER1] = mul1;
    t[MULTIPLIER2] = mul2;
    t[STATE] = k;
    Ok(())
}

// Whether no "index among them is outside the table", which has that many words.
fn indexes_inside(size: usize, list: &[u64], count: usize) -> bool
    requires { 2 * count ≤ length list.now }
    ensures { result ≡ inside size (pairs count list.now) }
{
    let mut rest = &list[..2 * count];
    while let [index, _, others @ ..] = rest {
        if size <= *index as usize {
            return false;
        }
        rest = others;
    }
    true
}

fn store_all(t: &mut [u64], list: &[u64], count: usize)
    requires { (2 * count ≤ length list.now) × (inside (length t.old) (pairs count list.now) ≡ true) }
    ensures { t.new ≡ made t.old (pairs count list.now) }
{
    let mut rest = &list[..2 * count];
    while let [index, word, others @ ..] = rest {
        t[*index as usize] = *word;
        rest = others;
    }
}

// "A separate call makes the first n stores of a list." Every index is tested before the first store, since "A refusal
// changes no buffer". The list's length is halved: twice n may not fit a word.
pub fn make(t: &mut [u64], list: &[u64], n: u64) -> Verdict
    ensures { Made t.old list.now n result t.new list.now }
{
    let count = n as usize;
    if list.len() / 2 < count {
        return Err(Refusal::BadMaking);
    }
    if !indexes_inside(t.len(), list, count) {
        return Err(Refusal::BadMaking);
    }
    store_all(t, list, count);
    Ok(())
}
