// The sample ledger: a table script and then samples on standard input, the report on standard output. What is reported is settled in the
// library, of which `posting` takes the bytes and `reporting` has the text. Here the bytes are read, part by part, so that an input of any
// length runs in the same little memory, and the report is written.
#![tactic(auto)]

ghost use Rattle.std.specs.Prelude.{◌≤◌, length};
ghost use Rattle.rules.specs.Words.{words_for};
ghost use Rattle.replaying.specs.Rooms.{RoomFor};
ghost use Rattle.running.specs.Inputs.{ReadSome, Ran};
ghost use Rattle.saying.specs.Writing.{Fronted};
ghost use Rattle.posting.specs.Posts.{begun, no_line, after_bytes, post_of};
ghost use Rattle.reporting.specs.Promises.{longest};
ghost use Rattle.ledger.specs.Parts.{known_in, turned_to, written_after};

use posting::Posting;
use reporting::report;
use running::Outcome;
use saying::{STDERR, STDOUT};
use std::io::{Read, Stdin};

#[derive(Clone, Copy)]
struct Turn {
    posting: Posting,
    outcome: Outcome,
}

// Reads once, unless the report is known, and takes what came.
fn read_some(stdin: Stdin, posting: &mut Posting, room: &mut [u64], input: &mut [u8]) -> Outcome
    ensures { ReadSome after_bytes known_in (post_of posting.old room.old) input.new result
        (post_of posting.new room.new) }
{
    if posting.ledger.is_known() {
        return Outcome::Known;
    }
    let mut source = stdin;
    let Ok(n) = source.read(input) else {
        return Outcome::Unread;
    };
    if n == 0 {
        return Outcome::Ended;
    }
    posting.take_part(room, &input[..n]);
    Outcome::Going
}

// A proved loop has to end, and nothing says that the input does. So the parts are counted, up to a number that no run comes to.
fn read_all(stdin: Stdin, room: &mut [u64], input: &mut [u8]) -> Turn
    requires { words_for 8 ≤ length room.old }
    ensures { Ran after_bytes known_in (begun room.old no_line) result.outcome (turned_to result room.new)
        × RoomFor 8 room.old }
{
    let mut posting = Posting::new();
    let mut parts: u64 = 0;
    while parts < u64::MAX {
        let outcome = read_some(stdin, &mut posting, room, input);
        let Outcome::Going = outcome else {
            return Turn { posting, outcome };
        };
        parts += 1;
    }
    Turn {
        posting,
        outcome: Outcome::Going,
    }
}

fn complain(text: &[u8]) {
    io::write_all(STDERR, text);
}

// Whether the report was written.
fn write_report(posting: &mut Posting, room: &mut [u64], out: &mut [u8]) -> bool
    requires { longest ≤ length out.old }
    ensures { Fronted out.new (written_after (post_of posting.old room.old)) }
{
    posting.end(room);
    let n = report(&posting.ledger, out);
    io::write_all(STDOUT, &out[..n])
}

// A program cannot end with a status of its own. So a failure is told on standard error, where nothing else is written: whoever
// starts the program takes any text there for a failure.
fn conclude(last: &mut Turn, room: &mut [u64], out: &mut [u8])
    requires { longest ≤ length out.old }
{
    match last.outcome {
        Outcome::Unread => {
            complain(b"ragansils: standard input could not be read\n");
            return;
        }
        Outcome::Going => {
            complain(b"ragansils: standard input has more parts than can be counted\n");
            return;
        }
        Outcome::Known => {}
        Outcome::Ended => {}
    }
    if !write_report(&mut last.posting, room, out) {
        complain(b"ragansils: the report could not be written\n");
    }
}

// The room holds a table of the largest cap, 8.
fn main(rt: HostRuntime) {
    let mut words = [0u64; 6652];
    let mut input = io::large_buffer();
    let mut out = io::large_buffer();
    let mut last = read_all(rt.stdin(), &mut words, &mut input);
    conclude(&mut last, &mut words, &mut out);
}
