// What a line of a script says: a name with a decimal, an event, or a cut. Any other line is bad.
#![tactic(auto)]

ghost use Rattle.std.specs.Prelude.{◌≡◌};
ghost use Rattle.lines.specs.Lines.{decimal_of, whole_line};
ghost use Rattle.lines.specs.Found.{digits_from, decimal_found};
ghost use Rattle.lines.specs.Promises.{Parsed, SampleParsed};

use rules::{Record, ScriptCall};

// The names that a number may have.
#[derive(Clone, Copy, PartialEq, Eq)]
pub enum Name {
    Cap,
    Top,
    Mul1,
    Mul2,
    Key,
    Fn,
    At,
    After,
}

// What a line says. An event is a call whose numbers are still 0: they stand in the lines after it.
#[derive(Clone, Copy)]
pub enum Line {
    Number(Name, u64),
    Event(ScriptCall),
    Cut,
    Bad,
}

// What a line of a ledger says: a sample of a key, or one that is bad; or it does not begin as a sample does.
#[derive(Clone, Copy)]
pub enum Sample {
    Key(u64),
    Bad,
    Other,
}

const NO_RECORD: Record = Record {
    function: 0,
    place: 0,
};

// The texts that a line may begin with, and what it then says, with its number still 0. None begins with another, so that their order
// says nothing: those come first that a script has most of.
const LINES: [(&[u8], Line); 19] = [
    (b"key=", Line::Number(Name::Key, 0)),
    (b"fn=", Line::Number(Name::Fn, 0)),
    (b"at=", Line::Number(Name::At, 0)),
    (b"op=insert", Line::Event(ScriptCall::Insert(0, NO_RECORD))),
    (b"op=update", Line::Event(ScriptCall::Update(0, NO_RECORD))),
    (b"op=delete", Line::Event(ScriptCall::Delete(0))),
    (b"op=query", Line::Event(ScriptCall::Query(0))),
    (b"op=begin", Line::Event(ScriptCall::Begin)),
    (b"op=shrink", Line::Event(ScriptCall::Shrink)),
    (b"op=back", Line::Event(ScriptCall::Back)),
    (b"op=step", Line::Event(ScriptCall::Step)),
    (b"op=end", Line::Event(ScriptCall::End)),
    (b"op=recover", Line::Event(ScriptCall::Recover)),
    (b"op=cut", Line::Cut),
    (b"after=", Line::Number(Name::After, 0)),
    (b"cap=", Line::Number(Name::Cap, 0)),
    (b"top=", Line::Number(Name::Top, 0)),
    (b"mul1=", Line::Number(Name::Mul1, 0)),
    (b"mul2=", Line::Number(Name::Mul2, 0)),
];

// "A number of 2^64 or more is bad"
fn read_digits(digits: &[u8]) -> Option<u64>
    ensures { result ≡ decimal_found (digits_from 0 digits.now) }
{
    let mut value: u64 = 0;
    for digit in digits {
        if !digit.is_ascii_digit() {
            return None;
        }
        value = value
            .checked_mul(10)?
            .checked_add(u64::from(*digit - b'0'))?;
    }
    Some(value)
}

// A decimal: "no leading zeros", so that a 0 at its beginning is all of it.
fn read_decimal(digits: &[u8]) -> Option<u64>
    ensures { result ≡ decimal_found (decimal_of digits.now) }
{
    let [first, ..] = digits else {
        return None;
    };
    if *first == b'0' && 1 < digits.len() {
        return None;
    }
    read_digits(digits)
}

// What a line says that begins as another does, with this after its text: a decimal follows a name, and nothing an event.
fn whole(says: Line, rest: &[u8]) -> Line
    ensures { result ≡ whole_line says rest.now }
{
    match says {
        Line::Number(name, _) => match read_decimal(rest) {
            Some(value) => Line::Number(name, value),
            None => Line::Bad,
        },
        _ if rest.is_empty() => says,
        _ => Line::Bad,
    }
}

// What a line says, without the newline that ends it. Any bytes may be handed in.
pub fn parse(line: &[u8]) -> Line
    ensures { Parsed line.now result line.now }
{
    for (text, says) in &LINES {
        if let Some(rest) = line.strip_prefix(text) {
            return whole(*says, rest);
        }
    }
    Line::Bad
}

// Request d), "lines `sample=` with a key". Any bytes may be handed in.
pub fn parse_sample(line: &[u8]) -> Sample
    ensures { SampleParsed line.now result line.now }
{
    match line.strip_prefix(b"sample=") {
        Some(digits) => match read_decimal(digits) {
            Some(key) => Sample::Key(key),
            None => Sample::Bad,
        },
        None => Sample::Other,
    }
}
