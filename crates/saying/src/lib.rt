// An answer of the script program as lines of text.
#![tactic(auto)]

ghost use Rattle.std.specs.Prelude.{◌+◌, ◌≤◌, length};
ghost use Rattle.saying.specs.Promises.{Said};
ghost use Rattle.lines.specs.Texts.{decimal_text};
ghost use Rattle.saying.specs.Texts.{text_of, text_bytes};
ghost use Rattle.saying.specs.Writing.{Put, PutLines, line_with};

use numbering::{change_number, query_words, reported, verdict_number};
use replaying::Answer;
use rules::{Change, Query, Verdict};

// The files that a program's answers and its failures go to, as the system numbers them.
pub const STDOUT: i32 = 1;

pub const STDERR: i32 = 2;

// The bytes of a buffer for an answer's lines: the longest have 157, a query's six numbers of 20 digits.
pub const TEXT_BYTES: usize = 160;

// Puts a text into a buffer from byte `at` on, and answers the next free byte.
pub fn copy(text: &[u8], out: &mut [u8], at: usize) -> usize
    requires { at + length text.now ≤ length out.old }
    ensures { Put text.now at out.old result out.new }
{
    let next = at + text.len();
    out[at..next].copy_from_slice(text);
    next
}

// Puts a number's decimal, and answers as `copy` does.
pub fn tell(number: u64, out: &mut [u8], at: usize) -> usize
    requires { at + 20 ≤ length out.old }
    ensures { Put (decimal_text number) at out.old result out.new × (result ≤ at + 20) }
{
    let mut digits = [0u8; 20];
    let count = io::decimal(number, &mut digits);
    copy(&digits[..count], out, at)
}

// Puts a line, of a name with its `=` and a number, "ended by a newline", and answers as `copy` does.
pub fn put_line(name: &[u8], number: u64, out: &mut [u8], at: usize) -> usize
    requires { at + length name.now + 21 ≤ length out.old }
    ensures { Put (line_with name.now number) at out.old result out.new
        × (result ≤ at + length name.now + 21) }
{
    let named = copy(name, out, at);
    let told = tell(number, out, named);
    copy(b"\n", out, told)
}

// "After `made=13` comes `events=0`"
fn created(verdict: Verdict, out: &mut [u8], at: usize) -> usize
    requires { at + text_bytes ≤ length out.old }
    ensures { PutLines (Answer.Created verdict) at out.old result out.new }
{
    let second = put_line(b"made=", verdict_number(verdict), out, at);
    match verdict {
        Ok(()) => second,
        Err(_) => put_line(b"events=", 0, out, second),
    }
}

// The lines of a change.
fn changed(change: Change, out: &mut [u8], at: usize) -> usize
    requires { at + text_bytes ≤ length out.old }
    ensures { PutLines (Answer.Changed change) at out.old result out.new × (result ≤ at + 56) }
{
    let second = put_line(b"answer=", change_number(change), out, at);
    put_line(b"stores=", reported(change), out, second)
}

// "An event under a cut line adds `kept=`, the stores made, after `stores=`"
fn kept(change: Change, made: u64, out: &mut [u8], at: usize) -> usize
    requires { at + text_bytes ≤ length out.old }
    ensures { PutLines (Answer.Kept change made) at out.old result out.new }
{
    let third = changed(change, out, at);
    put_line(b"kept=", made, out, third)
}

// "answer=0, fn=10, at=20, probes=1"; "`word=` and `level=` (0, 1, 2) after `probes=`"
fn found(answer: Query, out: &mut [u8], at: usize) -> usize
    requires { at + text_bytes ≤ length out.old }
    ensures { PutLines (Answer.Found answer) at out.old result out.new }
{
    let told = query_words(answer);
    let second = put_line(b"answer=", told.number, out, at);
    let third = put_line(b"fn=", told.function, out, second);
    let fourth = put_line(b"at=", told.place, out, third);
    let fifth = put_line(b"probes=", told.buckets, out, fourth);
    let sixth = put_line(b"word=", told.word, out, fifth);
    put_line(b"level=", told.level, out, sixth)
}

#[inline(never)]
fn put_answer(answer: Answer, out: &mut [u8], at: usize) -> usize
    requires { at + text_bytes ≤ length out.old }
    ensures { Put (text_of answer) at out.old result out.new }
{
    match answer {
        Answer::Nothing => at,
        Answer::Created(verdict) => created(verdict, out, at),
        Answer::Changed(change) => changed(change, out, at),
        Answer::Kept(change, made) => kept(change, made, out, at),
        Answer::Found(query) => found(query, out, at),
        Answer::Events(number) => put_line(b"events=", number, out, at),
        Answer::Bad(number) => put_line(b"bad=", number, out, at),
    }
}

// Puts an answer's lines from byte `at` on, and answers the next free byte. Most bytes of a script are answered by nothing: that is told
// before `put_answer` is called, which takes many registers.
#[inline]
pub fn say_at(answer: Answer, out: &mut [u8], at: usize) -> usize
    requires { at + text_bytes ≤ length out.old }
    ensures { Put (text_of answer) at out.old result out.new }
{
    if let Answer::Nothing = answer {
        return at;
    }
    put_answer(answer, out, at)
}

// The same at the front of a buffer, which answers how many bytes they have.
pub fn say(answer: Answer, out: &mut [u8; TEXT_BYTES]) -> usize
    ensures { Said answer out.old result out.new }
{
    say_at(answer, out, 0)
}
