// A script, line by line: what it waits for, and what a line makes of that.
#![tactic(auto)]

mod waiting;

use lines::Name;
use rules::ScriptCall;
pub use waiting::{finish, read, start};

// What a script waits for: a number of that name, a line that begins an event, or nothing more.
#[derive(Clone, Copy)]
pub enum Due {
    Number(Name),
    Event,
    Nothing,
}

// A cut line: how many stores it lets the event under it make, and its own number.
#[derive(Clone, Copy)]
pub struct CutLine {
    pub stores: u64,
    pub line: u64,
}

// Where a script stands: what it waits for; the event that was begun last, and the numbers read for it, or for the header; the cut
// line that the next event stands under; and how many lines were read.
#[derive(Clone, Copy)]
pub struct Script {
    pub due: Due,
    pub event: ScriptCall,
    pub first: u64,
    pub second: u64,
    pub third: u64,
    pub cut: Option<CutLine>,
    pub lines: u64,
}

// What a line asks for: mostly nothing, since a header and most events have several lines; a table of that cap and top with
// those multipliers; an event, under a cut line or not; or the end, for a bad line. `HeaderRead` speaks of the four numbers one by one.
#[derive(Clone, Copy)]
pub enum Asked {
    Nothing,
    Table(u64, u64, u64, u64),
    Event(ScriptCall, Option<CutLine>),
    Bad(u64),
}

#[derive(Clone, Copy)]
pub struct Reading {
    pub script: Script,
    pub asked: Asked,
}

// How a script ends: after whole events, in a bad line, or long before, where a bad line or a table that was not made ended it.
#[derive(Clone, Copy)]
pub enum Ending {
    Whole,
    Bad(u64),
    Over,
}
