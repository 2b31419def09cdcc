// Growing and shrinking in small steps: begin, shrink, back, step and end.
#![tactic(auto)]

pub mod interim;

ghost use Rattle.std.specs.Prelude.{◌≡◌, false, ◌≤◌, length};
ghost use Rattle.rules.specs.Words.{GoodState, GoodHeader, at_rest};
ghost use Rattle.rules.specs.Stores.{state_stores};
ghost use Rattle.rules.specs.Calls.{listed as listed_of, begin_of, shrink_of, back_of, step_item, step_in, step_of, end_of};
ghost use Rattle.rules.specs.Calls.{begin as begin_call, shrink as shrink_call, back as back_call, end as end_call};
ghost use Rattle.reading.specs.Gates.{Headed};
ghost use Rattle.listing.specs.Promises.{Changed, StepTaken, StepTakenFrom, Did};
ghost use Rattle.growing.specs.Steps.{RefusedStep, DidStep};

use interim::{bucket_in_level, first_item, first_placed};
use listing::{clear, list_placing, store};
use reading::gate::change_gate;
use reading::places::tag;
use reading::slots::{key_at, record_at, token};
use rules::layout::STATE;
use rules::{Change, Header, Placing, Refusal, State, Stepped, SteppedFrom};

// A new state, handed on by value: it is stored by one store.
fn restate(list: &mut [u64], s: State) -> Change
    requires { (20 ≤ length list.old) × (s.k ≤ 21) × (s.phase ≤ 2) }
    ensures { Did (listed_of (state_stores s)) list.old result list.new }
{
    let listed = store(list, 0, STATE, s.word());
    Ok(listed as u64)
}

// "begin growth | state: k + 1, phase 1"
fn begin_at(list: &mut [u64], h: Header) -> Change
    requires { (20 ≤ length list.old) × GoodState 20 h.state }
    ensures { Did (begin_of h) list.old result list.new }
{
    let state = h.state;
    if !state.at_rest() {
        return Err(Refusal::AlreadyResizing);
    }
    if state.k == h.c {
        return Err(Refusal::AtCapacity);
    }
    restate(list, state.begun())
}

// After the tests 1, 2 and 3: "7 | already growing", "9 | k = c".
pub fn begin(t: &[u64], list: &mut [u64]) -> Change
    ensures { Changed begin_call t.now list.old result t.now list.new }
{
    let h = change_gate(t, list.len())?;
    begin_at(list, h)
}

// "the state goes from rest with k to phase 2 with k − 1, in one store"
fn shrink_at(list: &mut [u64], h: Header) -> Change
    requires { (20 ≤ length list.old) × GoodState 20 h.state }
    ensures { Did (shrink_of h) list.old result list.new }
{
    let state = h.state;
    if !state.at_rest() {
        return Err(Refusal::AlreadyResizing);
    }
    if state.k < 2 {
        return Err(Refusal::TooSmall);
    }
    restate(list, state.shrunk())
}

// After the tests 1, 2 and 3: 7 in either phase, then "It needs k at least 2, else new refusal 17".
pub fn shrink(t: &[u64], list: &mut [u64]) -> Change
    ensures { Changed shrink_call t.now list.old result t.now list.new }
{
    let h = change_gate(t, list.len())?;
    shrink_at(list, h)
}

// "A shrinking table becomes a growing one with k + 1, and a growing one a shrinking one with k − 1, by one state store."
fn back_at(list: &mut [u64], h: Header) -> Change
    requires { (20 ≤ length list.old) × GoodState 20 h.state }
    ensures { Did (back_of h) list.old result list.new }
{
    let state = h.state;
    if state.at_rest() {
        return Err(Refusal::NotResizing);
    }
    let turned = state.turned();
    restate(list, turned)
}

// After the tests 1, 2 and 3: "At rest it, step and end give 8."
pub fn back(t: &[u64], list: &mut [u64]) -> Change
    ensures { Changed back_call t.now list.old result t.now list.new }
{
    let h = change_gate(t, list.len())?;
    back_at(list, h)
}

// A refused step: no store, no placing, and bucket 0.
fn unplaced(refusal: Refusal) -> SteppedFrom
    ensures { RefusedStep refusal result }
{
    SteppedFrom {
        stepped: Stepped {
            change: Err(refusal),
            placing: Placing::Nowhere,
        },
        bucket: 0,
    }
}

// The first item that has a place, from bucket b of the level on: its placing, "then its interim token cleared". "Refusal 6 is then given
// exactly when interim items remain and none has one": then the search has found no placing.
fn step_item(t: &[u64], list: &mut [u64], h: Header, b: usize) -> SteppedFrom
    requires { (20 ≤ length list.old) × Headed t.now h × (at_rest h.state ≡ false) }
    ensures { DidStep t.now h (step_item t.now h b) (step_in t.now h (step_item t.now h b))
        list.old result list.new }
{
    let found = first_placed(t, h, b);
    let p = found.placing;
    let (Placing::Free(y) | Placing::Move(y, _)) = p else {
        return unplaced(Refusal::NoPlace);
    };
    let x = found.item;
    let key = key_at(t, x);
    let at = list_placing(t, list, h, p, y, key, tag(h, key), record_at(t, x));
    let n = clear(list, at, h, token(t, x.bucket), x);
    SteppedFrom {
        stepped: Stepped {
            change: Ok(n as u64),
            placing: p,
        },
        bucket: bucket_in_level(h.state, x) as u64,
    }
}

// "for step and end 8 first". The buckets before that of the first item are empty, so the search for a place begins there.
fn step_at(t: &[u64], list: &mut [u64], h: Header, b: u64) -> SteppedFrom
    requires { (20 ≤ length list.old) × Headed t.now h }
    ensures { DidStep t.now h (step_item t.now h b) (step_of t.now h b) list.old result list.new }
{
    if h.state.at_rest() {
        return unplaced(Refusal::NotResizing);
    }
    let Some(first) = first_item(t, h, b) else {
        return unplaced(Refusal::InterimEmpty);
    };
    step_item(t, list, h, bucket_in_level(h.state, first))
}

// After the tests 1, 2 and 3: "8 | not growing", "11 | interim empty", "6 | no place", of the interim items from bucket b of the level on.
pub fn step_from(t: &[u64], list: &mut [u64], b: u64) -> SteppedFrom
    ensures { StepTakenFrom b t.now list.old result t.now list.new }
{
    match change_gate(t, list.len()) {
        Ok(h) => step_at(t, list, h, b),
        Err(refusal) => unplaced(refusal),
    }
}

// "with 0 it IS the step"
pub fn step(t: &[u64], list: &mut [u64]) -> Stepped
    ensures { StepTaken t.now list.old result t.now list.new }
{
    let went = step_from(t, list, 0);
    went.stepped
}

// "end growth | state: phase 0"; a shrink ends in the same way.
fn end_at(t: &[u64], list: &mut [u64], h: Header) -> Change
    requires { (20 ≤ length list.old) × GoodHeader (length t.now) h }
    ensures { Did (end_of t.now h) list.old result list.new }
{
    let state = h.state;
    if state.at_rest() {
        return Err(Refusal::NotResizing);
    }
    if first_item(t, h, 0).is_some() {
        return Err(Refusal::InterimTaken);
    }
    restate(list, state.ended())
}

// After the tests 1, 2 and 3: "8 | not growing", "10 | interim not empty".
pub fn end(t: &[u64], list: &mut [u64]) -> Change
    ensures { Changed end_call t.now list.old result t.now list.new }
{
    let h = change_gate(t, list.len())?;
    end_at(t, list, h)
}
