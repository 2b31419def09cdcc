// The conversion program: a table script on standard input, and on standard output what the conversion of its table to form 2 answers, and where
// that succeeds what the way back answers. The table is converted as the script leaves it, and is not recovered. `running` takes the bytes;
// here they are read, part by part, so that a script of any length runs in the same little memory.
#![tactic(auto)]

ghost use Rattle.std.specs.Prelude.{◌+◌, ◌≤◌, ◌≡◌, length, take};
ghost use mathlib.Core.List.{flat_map};
ghost use Rattle.rules.specs.Words.{words_for};
ghost use Rattle.rules.specs.Conversions.{convert_result};
ghost use Rattle.replaying.specs.Rooms.{RoomFor};
ghost use Rattle.running.specs.Inputs.{Ran};
ghost use Rattle.running.specs.Runs.{end_of};
ghost use Rattle.saying.specs.Writing.{Put, PutFront, Fronted};
ghost use Rattle.convert.specs.Outputs.{ways_in, way_text, ways_text, report_text};
ghost use Rattle.convert.specs.Taking.{takes};
ghost use Rattle.convert.specs.Parts.{largest, longest, ended_by, has_ended_in, last_ending, standing, begun, after_bytes, is_known, report_from};

use converting::convert;
use numbering::{conversion_words, number};
use replaying::Answer;
use replaying::lending::least;
use rules::{Conversion, Refusal};
use running::{LINE_ROOM, Outcome, Run, end, ready, take_byte};
use saying::{STDERR, STDOUT, put_line};
use std::io::Stdin;
use taking::{Taker, Turn};

// The words of a table of the largest cap, 7: "limited to cap 7 so that both fit". A larger one finds no room here, and is not made.
const ROOM: usize = 3324;

// The bytes of the longest report: two answers of two lines each, with numbers of twenty digits.
const LONGEST: usize = 106;

// Whether a script has ended so far, and how: with a table that is not made, or with a bad line.
#[derive(Clone, Copy)]
enum Ending {
    Open,
    Unmade(Refusal),
    Bad(u64),
}

// Where the bytes before have led to.
#[derive(Clone, Copy)]
struct Course {
    run: Run,
    ending: Ending,
}

// "`bad=` and `made=13`" end it. Other answers of the script are not told.
fn ended_by(answer: Answer) -> Ending
    ensures { result ≡ ended_by answer }
{
    match answer {
        Answer::Bad(line) => Ending::Bad(line),
        Answer::Created(Err(refusal)) => Ending::Unmade(refusal),
        _ => Ending::Open,
    }
}

impl Taker for Course {
    ghost after_part = { after_bytes };

    ghost has_ended = { has_ended_in };

    fn known(self) -> bool {
        !matches!(self.ending, Ending::Open)
    }

    // No byte is taken once the script has ended.
    fn take_part(self, room: &mut [u64], line: &mut [u8; LINE_ROOM], part: &[u8]) -> Course {
        let mut course = self;
        for byte in part {
            if course.known() {
                return course;
            }
            let taken = take_byte(course.run, room, line, *byte);
            course = Course {
                run: taken.run,
                ending: ended_by(taken.answer),
            };
        }
        course
    }

    ghost laws = { takes };
}

fn read_all(
    stdin: Stdin,
    room: &mut [u64],
    line: &mut [u8; LINE_ROOM],
    input: &mut [u8],
) -> Turn<Course>
    requires { length room.old ≡ words_for largest }
    ensures { Ran after_bytes is_known (begun room.old line.old) result.outcome
        (standing result.taker room.new line.new) × RoomFor largest room.old }
{
    let start = Course {
        run: ready(),
        ending: Ending::Open,
    };
    taking::read_all(stdin, start, room, line, input)
}

// Puts the two lines of a conversion's answer, "`answer=` and `key=`", from byte `at` on, and answers the next free byte.
fn put_way(answer: Conversion, out: &mut [u8], at: usize) -> usize
    requires { at + 53 ≤ length out.old }
    ensures { Put (way_text answer) at out.old result out.new × (result ≤ at + 53) }
{
    let words = conversion_words(answer);
    let second = put_line(b"answer=", words.number, out, at);
    put_line(b"key=", words.key, out, second)
}

// The way back, from the table that the way there has made.
fn put_back(second: &[u64], t: &mut [u64], out: &mut [u8], at: usize) -> usize
    requires { at + 53 ≤ length out.old }
    ensures { Put (way_text (convert_result second.now t.old).0) at out.old result out.new }
{
    let back = convert(second, t);
    put_way(back, out, at)
}

// "the way to form 2, and where that is 0 the same two lines of the way back", for which the first table's words are lent.
fn put_ways(t: &mut [u64], second: &mut [u64], out: &mut [u8]) -> usize
    requires { longest ≤ length out.old }
    ensures { PutFront (flat_map way_text (ways_in t.old second.old)) out.old result out.new }
{
    let there = convert(t, second);
    let next = put_way(there, out, 0);
    let Ok(()) = there else {
        return next;
    };
    put_back(second, t, out, next)
}

// The table that a script has left, in the first of the lent words.
fn put_table(words: usize, room: &mut [u64], out: &mut [u8]) -> usize
    requires { (length room.old ≡ words_for largest) × (longest ≤ length out.old) }
    ensures { PutFront (ways_text (take words room.old)) out.old result out.new }
{
    let mut second = [0u64; ROOM];
    let lent = least(words, room.len());
    put_ways(&mut room[..lent], &mut second[..lent], out)
}

// What no newline ends is a torn line.
fn last_ending(course: Course) -> Ending
    ensures { result ≡ last_ending course.ending (end_of course.run) }
{
    match course.ending {
        Ending::Open => ended_by(end(course.run)),
        ending => ending,
    }
}

// Puts the report at the front of a buffer, and answers how many bytes it has.
fn report(course: Course, room: &mut [u64], out: &mut [u8]) -> usize
    requires { (length room.old ≡ words_for largest) × (longest ≤ length out.old) }
    ensures { PutFront (report_text (report_from course room.old)) out.old result out.new }
{
    match last_ending(course) {
        Ending::Open => put_table(course.run.replay.words, room, out),
        Ending::Unmade(refusal) => put_line(b"made=", number(refusal), out, 0),
        Ending::Bad(line) => put_line(b"bad=", line, out, 0),
    }
}

fn complain(text: &[u8]) {
    io::write_all(STDERR, text);
}

// Whether the report was written.
fn write_report(course: Course, room: &mut [u64], out: &mut [u8]) -> bool
    requires { (length room.old ≡ words_for largest) × (longest ≤ length out.old) }
    ensures { Fronted out.new (report_text (report_from course room.old)) }
{
    let n = report(course, room, out);
    io::write_all(STDOUT, &out[..n])
}

// A program cannot end with a status of its own. So a failure is told on standard error, where nothing else is written: whoever
// starts the program takes any text there for a failure.
fn conclude(last: Turn<Course>, room: &mut [u64], out: &mut [u8])
    requires { (length room.old ≡ words_for largest) × (longest ≤ length out.old) }
{
    match last.outcome {
        Outcome::Unread => {
            complain(b"ragansils: standard input could not be read\n");
            return;
        }
        Outcome::Going => {
            complain(b"ragansils: standard input has more parts than can be counted\n");
            return;
        }
        Outcome::Known | Outcome::Ended => {}
    }
    if !write_report(last.taker, room, out) {
        complain(b"ragansils: the answers could not be written\n");
    }
}

fn main(rt: HostRuntime) {
    let mut words = [0u64; ROOM];
    let mut line = [0u8; LINE_ROOM];
    let mut input = io::large_buffer();
    let mut out = [0u8; LONGEST];
    let last = read_all(rt.stdin(), &mut words, &mut line, &mut input);
    conclude(last, &mut words, &mut out);
}
