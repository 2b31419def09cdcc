// The script program: a script on standard input, its answers on standard output. What is answered is settled in the library, of
// which `running` takes the bytes and `saying` has the text of an answer. Here the bytes are read and the text is written, part by
// part, so that a script of any length runs in the same little memory, and what has been answered is written before more is read.
#![tactic(auto)]

ghost use Rattle.std.specs.Prelude.{◌≤◌, ◌≡◌, length, take};
ghost use Rattle.rules.specs.Words.{words_for};
ghost use Rattle.running.specs.Runs.{end_of};
ghost use Rattle.saying.specs.Texts.{text_of, text_bytes};
ghost use Rattle.script.specs.Parts.{standing, begun, pauses as pauses_of, TookSome, TookPart, WentOn, ReadSome, Ran};

use running::{LINE_ROOM, Run, end, known, ready, take_byte};
use saying::{STDERR, STDOUT, TEXT_BYTES, say_at};
use std::io::{Read, Stdin};

// The first bytes of a text are taken: how many, and how many bytes of answers wait at the front of the buffer.
#[derive(Clone, Copy)]
struct Took {
    run: Run,
    taken: usize,
    waiting: usize,
}

// Whether no byte more is taken: the answer is known, or fewer bytes are free than `say_at` asks for.
fn pauses(run: Run, free: usize) -> bool
    ensures { result ≡ pauses_of run free }
{
    known(run) || free < TEXT_BYTES
}

fn take_some(
    start: Run,
    room: &mut [u64],
    line: &mut [u8; LINE_ROOM],
    text: &[u8],
    out: &mut [u8],
) -> Took
    ensures { TookSome (standing start room.old line.old) text.now result
        (standing result.run room.new line.new) out.new × (length out.new ≡ length out.old) }
{
    let mut run = start;
    let mut waiting = 0;
    for (taken, byte) in text.iter().enumerate() {
        if pauses(run, out.len() - waiting) {
            return Took {
                run,
                taken,
                waiting,
            };
        }
        let next = take_byte(run, room, line, *byte);
        waiting = say_at(next.answer, out, waiting);
        run = next.run;
    }
    Took {
        run,
        taken: text.len(),
        waiting,
    }
}

// How the program goes on: it reads more; the answer is known; the input has ended; or a read or a write has failed. This is one
// case more than `running::Outcome` has: the other programs write only once all is read.
#[derive(Clone, Copy)]
enum Outcome {
    Going,
    Known,
    Ended,
    Unread,
    Unwritten,
}

#[derive(Clone, Copy)]
struct Turn {
    run: Run,
    outcome: Outcome,
}

// Takes a part, and writes what it is answered with.
fn take_part(
    start: Run,
    room: &mut [u64],
    line: &mut [u8; LINE_ROOM],
    part: &[u8],
    out: &mut [u8],
) -> Turn
    requires { text_bytes ≤ length out.old }
    ensures { TookPart (standing start room.old line.old) part.now result.outcome
        (standing result.run room.new line.new) }
{
    let mut run = start;
    let mut taken = 0;
    while taken < part.len() && !known(run) {
        let took = take_some(run, room, line, &part[taken..], out);
        run = took.run;
        taken += took.taken;
        if !io::write_all(STDOUT, &out[..took.waiting]) {
            return Turn {
                run,
                outcome: Outcome::Unwritten,
            };
        }
    }
    Turn {
        run,
        outcome: Outcome::Going,
    }
}

// Where the input has ended: whether what is answered to that was written.
fn finish(run: Run, out: &mut [u8]) -> bool
    requires { text_bytes ≤ length out.old }
    ensures { take (length (text_of (end_of run))) out.new ≡ text_of (end_of run) }
{
    let waiting = say_at(end(run), out, 0);
    io::write_all(STDOUT, &out[..waiting])
}

// Takes what was read, which is nothing where the input has ended.
fn take_read(
    run: Run,
    room: &mut [u64],
    line: &mut [u8; LINE_ROOM],
    part: &[u8],
    out: &mut [u8],
) -> Turn
    requires { text_bytes ≤ length out.old }
    ensures { WentOn (standing run room.old line.old) part.now result
        (standing result.run room.new line.new) }
{
    if part.len() == 0 {
        let outcome = if finish(run, out) {
            Outcome::Ended
        } else {
            Outcome::Unwritten
        };
        return Turn { run, outcome };
    }
    take_part(run, room, line, part, out)
}

// Reads once, unless the answer is known, and takes what came.
fn read_some(
    mut stdin: Stdin,
    run: Run,
    room: &mut [u64],
    line: &mut [u8; LINE_ROOM],
    input: &mut [u8],
    out: &mut [u8],
) -> Turn
    requires { text_bytes ≤ length out.old }
    ensures { ReadSome (standing run room.old line.old) input.new result
        (standing result.run room.new line.new) }
{
    if known(run) {
        return Turn {
            run,
            outcome: Outcome::Known,
        };
    }
    match stdin.read(input) {
        Ok(n) => take_read(run, room, line, &input[..n], out),
        Err(_) => Turn {
            run,
            outcome: Outcome::Unread,
        },
    }
}

// A proved loop has to end, and nothing says that the input does. So the parts are counted, up to a number that no run comes to.
fn read_all(
    stdin: Stdin,
    room: &mut [u64],
    line: &mut [u8; LINE_ROOM],
    input: &mut [u8],
    out: &mut [u8],
) -> Turn
    requires { (words_for 8 ≤ length room.old) × (text_bytes ≤ length out.old) }
    ensures { Ran (begun room.old line.old) result.outcome (standing result.run room.new line.new) }
{
    let mut run = ready();
    for _parts in 0..u64::MAX {
        let turn = read_some(stdin, run, room, line, input, out);
        let Outcome::Going = turn.outcome else {
            return turn;
        };
        run = turn.run;
    }
    Turn {
        run,
        outcome: Outcome::Going,
    }
}

fn complain(text: &[u8]) {
    io::write_all(STDERR, text);
}

// A program cannot end with a status of its own. So a failure is told on standard error, where nothing else is written: whoever
// starts the program takes any text there for a failure.
fn tell(outcome: Outcome) {
    match outcome {
        Outcome::Known | Outcome::Ended => {}
        Outcome::Unread => complain(b"ragansils: standard input could not be read\n"),
        Outcome::Unwritten => complain(b"ragansils: the answers could not be written\n"),
        Outcome::Going => complain(
            b"ragansils: standard input has more parts than can be counted\n",
        ),
    }
}

// The room holds a table of the largest cap, 8.
fn main(rt: HostRuntime) {
    let mut words = [0u64; 6652];
    let mut line = [0u8; LINE_ROOM];
    let mut input = io::large_buffer();
    let mut out = io::large_buffer();
    let last = read_all(rt.stdin(), &mut words, &mut line, &mut input, &mut out);
    tell(last.outcome);
}
