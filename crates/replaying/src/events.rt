// One event: its call on the table, and its stores made as far as its cut line lets them be.
ghost use Rattle.std.specs.Prelude.{◌≡◌};
ghost use Rattle.replaying.specs.Events.{kept_under, change_answer, Called, ChangeMade, EventDone};

use crate::Answer;
use changing::{delete, insert, update};
use following::CutLine;
use growing::{back, begin, end, shrink, step};
use making::make;
use numbering::reported;
use querying::query;
use recovering::recover;
use rules::{Change, ScriptCall};

// What the call itself answers. "A changing call only reads the table."
fn called(t: &[u64], list: &mut [u64], call: ScriptCall) -> Answer
    ensures { Called call t.now list.old result t.now list.new }
{
    match call {
        ScriptCall::Query(key) => Answer::Found(query(t, key)),
        ScriptCall::Insert(key, record) => Answer::Changed(insert(t, list, key, record)),
        ScriptCall::Update(key, record) => Answer::Changed(update(t, list, key, record)),
        ScriptCall::Delete(key) => Answer::Changed(delete(t, list, key)),
        ScriptCall::Begin => Answer::Changed(begin(t, list)),
        ScriptCall::Shrink => Answer::Changed(shrink(t, list)),
        ScriptCall::Back => Answer::Changed(back(t, list)),
        ScriptCall::Step => Answer::Changed(step(t, list).change),
        ScriptCall::End => Answer::Changed(end(t, list)),
        ScriptCall::Recover => Answer::Changed(recover(t, list)),
    }
}

// "lets only that many of its stores be made, or all if there are fewer"
fn kept(cut: Option<CutLine>, stores: u64) -> u64
    ensures { result ≡ kept_under cut stores }
{
    match cut {
        Some(cut) => cut.stores.min(stores),
        None => stores,
    }
}

// "An event under a cut line adds `kept=`, the stores made, after `stores=`"
fn answer(cut: Option<CutLine>, change: Change) -> Answer
    ensures { result ≡ change_answer cut change }
{
    match cut {
        Some(_) => Answer::Kept(change, kept(cut, reported(change))),
        None => Answer::Changed(change),
    }
}

// The stores of a change are made.
fn make_change(t: &mut [u64], list: &[u64], change: Change, cut: Option<CutLine>) -> Answer
    ensures { ChangeMade change cut t.old list.now result t.new }
{
    let _ = make(t, list, kept(cut, reported(change)));
    answer(cut, change)
}

pub fn event(t: &mut [u64], call: ScriptCall, cut: Option<CutLine>) -> Answer
    ensures { EventDone call cut t.old result t.new }
{
    let mut list = [0; 20];
    let own = called(t, &mut list, call);
    let Answer::Changed(change) = own else {
        return own;
    };
    make_change(t, &list, change, cut)
}
