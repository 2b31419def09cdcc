// What a line makes of what a script waits for.
ghost use Rattle.std.specs.Prelude.{◌≡◌};
ghost use Rattle.following.specs.declared.Due.TheVariants.{Number as a_number, Event as an_event};
ghost use Rattle.following.specs.Scripts.{start as start_of, next_line, line_read, waits as waits_of, asks as asks_of};
ghost use Rattle.following.specs.Scripts.{stops_at as stops_at_of, stops as stops_of, numbers_in, filled as filled_of, key_read};
ghost use Rattle.following.specs.Scripts.{number_read, event_begun, may_be_cut, event_read, cut_read, expected, reading_of, no_event_line, at_event};
ghost use Rattle.following.specs.Scripts.{ending_of};

use crate::{Asked, CutLine, Due, Ending, Reading, Script};
use lines::{Line, Name};
use rules::{Record, ScriptCall};

// "`cap`, `top` (the first k), `mul1`, `mul2`, then events"
pub fn start() -> Script
    ensures { result ≡ start_of }
{
    Script {
        due: Due::Number(Name::Cap),
        event: ScriptCall::Begin,
        first: 0,
        second: 0,
        third: 0,
        cut: None,
        lines: 0,
    }
}

// "`op=insert` or `op=update` with `key`, `fn`, `at`; `op=delete` or `op=query` with `key`"
fn numbers_in(event: ScriptCall) -> u64
    ensures { result ≡ numbers_in event }
{
    match event {
        ScriptCall::Insert(_, _) | ScriptCall::Update(_, _) => 3,
        ScriptCall::Query(_) | ScriptCall::Delete(_) => 1,
        _ => 0,
    }
}

// An event with its numbers.
fn filled(event: ScriptCall, key: u64, function: u64, place: u64) -> ScriptCall
    ensures { result ≡ filled_of event key function place }
{
    match event {
        ScriptCall::Query(_) => ScriptCall::Query(key),
        ScriptCall::Insert(_, _) => ScriptCall::Insert(key, Record { function, place }),
        ScriptCall::Update(_, _) => ScriptCall::Update(key, Record { function, place }),
        ScriptCall::Delete(_) => ScriptCall::Delete(key),
        _ => event,
    }
}

fn may_be_cut(event: ScriptCall) -> bool
    ensures { result ≡ may_be_cut event }
{
    !matches!(event, ScriptCall::Query(_))
}

impl Script {
    // The number of the next line, from 1.
    fn next_line(self) -> u64
        ensures { result ≡ next_line self }
    {
        self.lines.wrapping_add(1)
    }

    // A line more is read, and the numbers before it have been taken.
    fn line_read(self) -> Script
        ensures { result ≡ line_read self }
    {
        Script {
            first: 0,
            second: 0,
            third: 0,
            lines: self.next_line(),
            ..self
        }
    }

    // More is to come for a header or an event.
    fn waits(self, due: Due, first: u64, second: u64, third: u64) -> Reading
        ensures { result ≡ waits_of self due first second third }
    {
        Reading {
            script: Script {
                due,
                first,
                second,
                third,
                ..self.line_read()
            },
            asked: Asked::Nothing,
        }
    }

    // A header or an event is whole.
    fn asks(self, asked: Asked) -> Reading
        ensures { result ≡ asks_of self asked }
    {
        Reading {
            script: Script {
                due: Due::Event,
                cut: None,
                ..self.line_read()
            },
            asked,
        }
    }

    // "First bad line: `bad=` its number, from 1, and stop."
    fn stops_at(self, line: u64) -> Reading
        ensures { result ≡ stops_at_of self line }
    {
        Reading {
            script: Script {
                due: Due::Nothing,
                cut: None,
                ..self.line_read()
            },
            asked: Asked::Bad(line),
        }
    }

    fn stops(self) -> Reading
        ensures { result ≡ stops_of self }
    {
        self.stops_at(self.next_line())
    }

    fn key_read(self, key: u64) -> Reading
        ensures { result ≡ key_read self key }
    {
        if numbers_in(self.event) == 1 {
            return self.asks(Asked::Event(filled(self.event, key, 0, 0), self.cut));
        }
        self.waits(Due::Number(Name::Fn), key, 0, 0)
    }

    // The cut line is the one before its `after`.
    fn number_read(self, name: Name, v: u64) -> Reading
        ensures { result ≡ number_read self name v }
    {
        match name {
            Name::Cap => self.waits(Due::Number(Name::Top), v, 0, 0),
            Name::Top => self.waits(Due::Number(Name::Mul1), self.first, v, 0),
            Name::Mul1 => self.waits(Due::Number(Name::Mul2), self.first, self.second, v),
            Name::Mul2 => self.asks(Asked::Table(self.first, self.second, self.third, v)),
            Name::Key => self.key_read(v),
            Name::Fn => self.waits(Due::Number(Name::At), self.first, v, 0),
            Name::At => self.asks(Asked::Event(
                filled(self.event, self.first, self.second, v),
                self.cut,
            )),
            Name::After => Reading {
                script: Script {
                    due: Due::Event,
                    cut: Some(CutLine {
                        stores: v,
                        line: self.lines,
                    }),
                    ..self.line_read()
                },
                asked: Asked::Nothing,
            },
        }
    }

    fn event_begun(self, event: ScriptCall) -> Reading
        ensures { result ≡ event_begun self event }
    {
        if numbers_in(event) == 0 {
            return self.asks(Asked::Event(event, self.cut));
        }
        Reading {
            script: Script {
                due: Due::Number(Name::Key),
                event,
                ..self.line_read()
            },
            asked: Asked::Nothing,
        }
    }

    // "which must stand right before a changing event or recover (else the cut line is the bad line)"
    fn event_read(self, event: ScriptCall) -> Reading
        ensures { result ≡ event_read self self.cut event }
    {
        match self.cut {
            Some(cut) if !may_be_cut(event) => self.stops_at(cut.line),
            _ => self.event_begun(event),
        }
    }

    fn cut_read(self) -> Reading
        ensures { result ≡ cut_read self self.cut }
    {
        match self.cut {
            Some(cut) => self.stops_at(cut.line),
            None => self.waits(Due::Number(Name::After), 0, 0, 0),
        }
    }

    // The number of the bad line where no event begins.
    fn no_event_line(self) -> u64
        ensures { result ≡ no_event_line self self.cut }
    {
        match self.cut {
            Some(cut) => cut.line,
            None => self.next_line(),
        }
    }

    fn number_line(self, due: Name, line: Line) -> Reading
        ensures { result ≡ expected self (a_number due) line }
    {
        match line {
            Line::Number(name, v) if due == name => self.number_read(due, v),
            _ => self.stops(),
        }
    }

    fn event_line(self, line: Line) -> Reading
        ensures { result ≡ expected self an_event line }
    {
        match line {
            Line::Event(event) => self.event_read(event),
            Line::Cut => self.cut_read(),
            Line::Number(_, _) | Line::Bad => self.stops_at(self.no_event_line()),
        }
    }

    fn event_missing(self, torn: bool) -> Ending
        ensures { result ≡ at_event self self.cut torn }
    {
        if torn || self.cut.is_some() {
            return Ending::Bad(self.no_event_line());
        }
        Ending::Whole
    }
}

#[tactic(auto, unfolding(crate::specs::Scripts::reading_of))]
pub fn read(s: Script, line: Line) -> Reading
    ensures { result ≡ reading_of s line }
{
    match s.due {
        Due::Number(name) => s.number_line(name, line),
        Due::Event => s.event_line(line),
        Due::Nothing => Reading {
            script: s,
            asked: Asked::Nothing,
        },
    }
}

// What follows the last newline is a torn line where there is any of it.
#[tactic(auto, unfolding(crate::specs::Scripts::ending_of))]
pub fn finish(s: Script, torn: bool) -> Ending
    ensures { result ≡ ending_of s torn }
{
    match s.due {
        Due::Number(_) => Ending::Bad(s.next_line()),
        Due::Event => s.event_missing(torn),
        Due::Nothing => Ending::Over,
    }
}
