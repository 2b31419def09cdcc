// A script byte by byte, so that one of any length runs in little memory: the bytes of a line are held until its newline comes.
#![tactic(auto)]

ghost use Rattle.std.specs.Prelude.{◌≡◌};
ghost use Rattle.running.specs.Runs.{ready as ready_of, HeldIs, LineTaken, ByteTaken, known as known_of, end_of};

use following::Due;
use lines::parse;
use replaying::lending::least;
use replaying::{Answer, Replay, begun, finish, take_line};

// As many bytes of a line as are held: one more than the longest good line has, a ledger's `sample=` with twenty digits. So many bytes tell
// that a line is bad.
pub const LINE_ROOM: usize = 28;

// Where a run stands: in its replay, and how many bytes of the line are held. These bytes are lent beside it, since `BytesAnswerAsLines` speaks
// of a run in any bytes that are lent.
#[derive(Clone, Copy)]
pub struct Run {
    pub replay: Replay,
    pub held: usize,
}

#[derive(Clone, Copy)]
pub struct Taken {
    pub run: Run,
    pub answer: Answer,
}

// How a program goes on that reads its input part by part: it reads more; all that it will write is known; the input has ended; or a read has
// failed.
#[derive(Clone, Copy)]
pub enum Outcome {
    Going,
    Known,
    Ended,
    Unread,
}

pub fn ready() -> Run
    ensures { result ≡ ready_of }
{
    let replay = begun();
    Run { replay, held: 0 }
}

// One byte more of a line, as far as there is place.
pub fn hold(line: &mut [u8; LINE_ROOM], held: usize, byte: u8) -> usize
    ensures { HeldIs line.old held byte result line.new }
{
    if held < LINE_ROOM {
        line[held] = byte;
        return held + 1;
    }
    held
}

// "each ended by a newline"
fn take_newline(run: Run, room: &mut [u64], line: &[u8; LINE_ROOM]) -> Taken
    ensures { LineTaken run room.old line.now result room.new }
{
    let held = least(run.held, line.len());
    let turn = take_line(run.replay, room, parse(&line[..held]));
    Taken {
        run: Run {
            replay: turn.replay,
            held: 0,
        },
        answer: turn.answer,
    }
}

pub fn take_byte(run: Run, room: &mut [u64], line: &mut [u8; LINE_ROOM], byte: u8) -> Taken
    ensures { ByteTaken run room.old line.old byte result room.new line.new }
{
    if byte == b'\n' {
        return take_newline(run, room, line);
    }
    Taken {
        run: Run {
            held: hold(line, run.held, byte),
            ..run
        },
        answer: Answer::Nothing,
    }
}

// Whether all that is answered is known, whatever comes: after a bad line, and where no table was made.
pub fn known(run: Run) -> bool
    ensures { result ≡ known_of run }
{
    matches!(run.replay.script.due, Due::Nothing)
}

// What no newline ends is a torn line.
#[tactic(auto, unfolding(crate::specs::Runs::end_of))]
pub fn end(run: Run) -> Answer
    ensures { result ≡ end_of run }
{
    finish(run.replay, 0 < run.held)
}
