// One line of the input, carried out on the lent words.
use crate::lines::{Command, parsed};
use printing::{UNWRITTEN, change, placing, query, say, verdict, words};
use rules::{Change, Record, ScriptCall};

// How many words of the room and of the list's room the calls are lent.
#[derive(Clone, Copy)]
pub struct Lent {
    pub table: usize,
    pub list: usize,
}

// Outside the words nothing is put.
fn put(w: &mut [u64], index: u64, value: u64) {
    if let Some(word) = w.get_mut(index as usize) {
        *word = value;
    }
}

// A call that lists stores.
fn listed<F: FnOnce(&mut [u64]) -> Change>(list: &mut [u64], call: F)
    requires { F.IsAlwaysCallable call }
{
    list.fill(UNWRITTEN);
    let answer = call(list);
    change(list, answer);
}

// A step's answer holds a placing besides.
fn step(t: &[u64], list: &mut [u64]) {
    list.fill(UNWRITTEN);
    let answer = growing::step(t, list);
    change(list, answer.change);
    placing(answer.placing);
}

// "A changing call only reads the table."
fn called(t: &[u64], list: &mut [u64], call: ScriptCall) {
    match call {
        ScriptCall::Query(key) => query(querying::query(t, key)),
        ScriptCall::Insert(key, r) => listed(list, |list| changing::insert(t, list, key, r)),
        ScriptCall::Update(key, r) => listed(list, |list| changing::update(t, list, key, r)),
        ScriptCall::Delete(key) => listed(list, |list| changing::delete(t, list, key)),
        ScriptCall::Begin => listed(list, |list| growing::begin(t, list)),
        ScriptCall::Shrink => listed(list, |list| growing::shrink(t, list)),
        ScriptCall::Back => listed(list, |list| growing::back(t, list)),
        ScriptCall::Step => step(t, list),
        ScriptCall::End => listed(list, |list| growing::end(t, list)),
        ScriptCall::Recover => listed(list, |list| recovering::recover(t, list)),
    }
}

// Query and then each call that lists stores, all on the same table.
fn every(t: &[u64], list: &mut [u64], key: u64, r: Record) {
    let calls = [
        ScriptCall::Query(key),
        ScriptCall::Insert(key, r),
        ScriptCall::Update(key, r),
        ScriptCall::Delete(key),
        ScriptCall::Begin,
        ScriptCall::Shrink,
        ScriptCall::Back,
        ScriptCall::Step,
        ScriptCall::End,
        ScriptCall::Recover,
    ];
    for call in &calls {
        called(t, list, *call);
    }
}

// What sets words has no answer; nor has a remark.
fn carried_out(t: &mut [u64], list: &mut [u64], command: Command) {
    match command {
        Command::Remark => {}
        Command::Table(_) => t.fill(UNWRITTEN),
        Command::List(_) => list.fill(UNWRITTEN),
        Command::Word(at, value) => put(t, at, value),
        Command::Give(at, value) => put(list, at, value),
        Command::View(from, to) => words(t, from, to),
        Command::Pairs => words(list, 0, list.len()),
        Command::Create(form, c, k, mul1, mul2) => {
            verdict(making::create(t, form, c, k, mul1, mul2))
        }
        Command::Make(pairs) => verdict(making::make(t, list, pairs)),
        Command::Call(call) => called(t, list, call),
        Command::All(key, r) => every(t, list, key, r),
    }
}

// What a line and those after it are lent.
fn next_lent(lent: Lent, command: Command) -> Lent {
    match command {
        Command::Table(table) => Lent { table, ..lent },
        Command::List(list) => Lent { list, ..lent },
        _ => lent,
    }
}

// A line that asks for more words than there are is passed over.
pub fn one_line(room: &mut [u64], list: &mut [u64], lent: Lent, text: &[u8]) -> Lent {
    let command = parsed(text);
    let next = next_lent(lent, command);
    if room.len() < next.table || list.len() < next.list {
        return lent;
    }
    say(text);
    carried_out(&mut room[..next.table], &mut list[..next.list], command);
    say(b"\n");
    next
}
