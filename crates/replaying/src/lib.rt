// A script carried out: what its lines ask for, done on lent words, and what is answered.
#![tactic(auto)]

mod events;
pub mod lending;
mod turns;

use following::Script;
use rules::{Change, Query, Verdict};
pub use turns::{begun, evented, finish, take_line};

// What is answered to a line: mostly nothing, since a header and most events have several lines. What creation answers; what a
// change answers, under a cut line with the stores kept besides; what a query answers; the number of events at the end; the number
// of the first bad line.
#[derive(Clone, Copy)]
pub enum Answer {
    Nothing,
    Created(Verdict),
    Changed(Change),
    Kept(Change, u64),
    Found(Query),
    Events(u64),
    Bad(u64),
}

// Where a replay stands: in its script, how many of the lent words its table has, and how many events were answered.
#[derive(Clone, Copy)]
pub struct Replay {
    pub script: Script,
    pub words: usize,
    pub events: u64,
}

#[derive(Clone, Copy)]
pub struct Turn {
    pub replay: Replay,
    pub answer: Answer,
}
