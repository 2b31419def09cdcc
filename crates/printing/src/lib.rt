// Answers as text on standard output, in document 01's numbers and values: "a definition tells you this paper's number and
// values for each of its cases". Each answer begins with a colon.
#![tactic(auto)]

use numbering::{number, query_words, verdict_number};
use rules::{Change, Placing, Query, Slot, Verdict};

// What a list is filled with before a call, so that a word which the call has written is seen.
pub const UNWRITTEN: u64 = 77;

pub fn say(text: &[u8]) {
    io::write_all(1, text);
}

pub fn tell(n: u64) {
    say(b" ");
    io::print_decimal(1, n);
}

// An answer's number, "0 is success", which its values follow.
fn outcome(number: u64) {
    say(b":");
    tell(number);
}

// Words `from` to `to` − 1, as far as they are there.
pub fn words(w: &[u64], from: usize, to: usize) {
    say(b":");
    for word in w.iter().take(to).skip(from) {
        tell(*word);
    }
}

// "A changing call or recovery that succeeds writes only the list's first 2·stores words", and a refusal none: a word that
// was written beyond them is told too.
fn stores(list: &[u64], count: u64) {
    tell(count);
    for (i, word) in list.iter().enumerate() {
        if i as u64 / 2 < count || *word != UNWRITTEN {
            tell(*word);
        }
    }
}

pub fn change(list: &[u64], answer: Change) {
    match answer {
        Ok(count) => {
            outcome(0);
            stores(list, count);
        }
        Err(refusal) => {
            outcome(number(refusal));
            stores(list, 0);
        }
    }
}

pub fn query(answer: Query) {
    let told = query_words(answer);
    outcome(told.number);
    tell(told.function);
    tell(told.place);
    tell(told.buckets);
    tell(told.word);
    tell(told.level);
}

pub fn verdict(answer: Verdict) {
    outcome(verdict_number(answer));
}

fn slot(x: Slot) {
    tell(x.level);
    tell(x.bucket as u64);
    tell(x.slot as u64);
}

// The slot that the item takes; with a move, the slot that the moved item goes to besides.
pub fn placing(p: Placing) {
    match p {
        Placing::Free(x) => {
            say(b" free");
            slot(x);
        }
        Placing::Move(x, y) => {
            say(b" move");
            slot(x);
            slot(y);
        }
        Placing::Nowhere => say(b" nowhere"),
    }
}
