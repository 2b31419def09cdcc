// What a line makes of a replay.
ghost use Rattle.std.specs.Prelude.{◌≡◌};
ghost use Rattle.following.specs.declared.Asked.TheVariants.{Table as ask_table, Event as ask_event};
ghost use Rattle.replaying.specs.declared.Answer.TheVariants.{Created};
ghost use Rattle.replaying.specs.Replays.{begun as begun_of, stopped, counted, moved, asked_of, turn_of, finish_of, TurnIs};

use crate::events::event;
use crate::lending::least;
use crate::{Answer, Replay, Turn};
use following::{Asked, CutLine, Due, Ending, Script, finish as end_of, read, start};
use lines::Line;
use making::create;
use reading::header::words_for;
use rules::{Refusal, ScriptCall};

pub fn begun() -> Replay
    ensures { result ≡ begun_of }
{
    Replay {
        script: start(),
        words: 0,
        events: 0,
    }
}

// "After `made=13` comes `events=0`, and no event line is read."
fn unmade(p: Replay, next: Script, refusal: Refusal) -> Turn
    ensures { (result.replay ≡ stopped p next) × (result.answer ≡ Created (Err refusal)) }
{
    Turn {
        replay: Replay {
            script: Script {
                due: Due::Nothing,
                event: ScriptCall::Begin,
                first: 0,
                second: 0,
                third: 0,
                cut: None,
                lines: next.lines,
            },
            ..p
        },
        answer: Answer::Created(Err(refusal)),
    }
}

// "Program cap is at most 8; a larger one gives `made=13`." The table is made in the first of the lent words.
fn tabled(p: Replay, next: Script, room: &mut [u64], c: u64, k: u64, mul1: u64, mul2: u64) -> Turn
    ensures { TurnIs (asked_of room.old p next (ask_table c k mul1 mul2)) result room.new }
{
    if 8 < c {
        return unmade(p, next, Refusal::BadCreation);
    }
    let words = words_for(c);
    let lent = least(words, room.len());
    match create(&mut room[..lent], 1, c, k, mul1, mul2) {
        Ok(()) => Turn {
            replay: Replay {
                script: next,
                words,
                ..p
            },
            answer: Answer::Created(Ok(())),
        },
        Err(refusal) => unmade(p, next, refusal),
    }
}

// One event more is answered.
fn answered(p: Replay, next: Script, answer: Answer) -> Turn
    ensures { (result.replay ≡ counted p next) × (result.answer ≡ answer) }
{
    Turn {
        replay: Replay {
            script: next,
            events: p.events.wrapping_add(1),
            ..p
        },
        answer,
    }
}

// Carries out one event, which the script need not have.
pub fn evented(
    p: Replay,
    next: Script,
    room: &mut [u64],
    call: ScriptCall,
    cut: Option<CutLine>,
) -> Turn
    ensures { TurnIs (asked_of room.old p next (ask_event call cut)) result room.new }
{
    let lent = least(p.words, room.len());
    let answer = event(&mut room[..lent], call, cut);
    answered(p, next, answer)
}

// Nothing is done.
fn passed(p: Replay, next: Script, answer: Answer) -> Turn
    ensures { (result.replay ≡ moved p next) × (result.answer ≡ answer) }
{
    Turn {
        replay: Replay { script: next, ..p },
        answer,
    }
}

#[tactic(auto, unfolding(crate::specs::Replays::turn_of))]
pub fn take_line(p: Replay, room: &mut [u64], line: Line) -> Turn
    ensures { TurnIs (turn_of room.old p line) result room.new }
{
    let reading = read(p.script, line);
    let next = reading.script;
    match reading.asked {
        Asked::Nothing => passed(p, next, Answer::Nothing),
        Asked::Table(c, k, mul1, mul2) => tabled(p, next, room, c, k, mul1, mul2),
        Asked::Event(call, cut) => evented(p, next, room, call, cut),
        Asked::Bad(line) => passed(p, next, Answer::Bad(line)),
    }
}

#[tactic(auto, unfolding(crate::specs::Replays::finish_of))]
pub fn finish(p: Replay, torn: bool) -> Answer
    ensures { result ≡ finish_of p torn }
{
    match end_of(p.script, torn) {
        Ending::Whole => Answer::Events(p.events),
        Ending::Bad(line) => Answer::Bad(line),
        Ending::Over => Answer::Nothing,
    }
}
