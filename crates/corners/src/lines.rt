// Lines of words and decimal numbers.
use rules::{Record, ScriptCall};

// What a line asks for.
#[derive(Clone, Copy)]
pub enum Command {
    Remark,
    Table(usize),
    List(usize),
    Word(u64, u64),
    Give(u64, u64),
    View(usize, usize),
    Pairs,
    Create(u64, u64, u64, u64, u64),
    Make(u64),
    Call(ScriptCall),
    All(u64, Record),
}

// One digit more. A number of 2^64 or more is not meant to be asked for.
fn with_digit(value: u64, digit: u8) -> u64 {
    if digit < b'0' || value > 1844674407370955161 {
        return value;
    }
    (10 * value).wrapping_add(u64::from(digit - b'0'))
}

fn number(word: &[u8]) -> u64 {
    let mut value = 0;
    for digit in word {
        value = with_digit(value, *digit);
    }
    value
}

// Any letter but these asks for recover.
fn asked(letter: u8, numbers: [u64; 5]) -> Command {
    let [first, second, third, fourth, fifth] = numbers;
    let record = Record {
        function: second,
        place: third,
    };
    match letter {
        b'#' => Command::Remark,
        b'T' => Command::Table(first as usize),
        b'L' => Command::List(first as usize),
        b'W' => Command::Word(first, second),
        b'G' => Command::Give(first, second),
        b'v' => Command::View(first as usize, second as usize),
        b'p' => Command::Pairs,
        b'c' => Command::Create(first, second, third, fourth, fifth),
        b'm' => Command::Make(first),
        b'a' => Command::All(first, record),
        b'q' => Command::Call(ScriptCall::Query(first)),
        b'i' => Command::Call(ScriptCall::Insert(first, record)),
        b'u' => Command::Call(ScriptCall::Update(first, record)),
        b'd' => Command::Call(ScriptCall::Delete(first)),
        b'b' => Command::Call(ScriptCall::Begin),
        b'h' => Command::Call(ScriptCall::Shrink),
        b't' => Command::Call(ScriptCall::Back),
        b's' => Command::Call(ScriptCall::Step),
        b'e' => Command::Call(ScriptCall::End),
        _ => Command::Call(ScriptCall::Recover),
    }
}

// The first letter of a line's word, and the numbers after it; a number that is missing is 0.
pub fn parsed(line: &[u8]) -> Command {
    let Some(letter) = line.first() else {
        return Command::Remark;
    };
    let mut words = line.split(|byte| *byte == b' ');
    words.next();
    let mut numbers = [0; 5];
    for (place, word) in numbers.iter_mut().zip(words) {
        *place = number(word);
    }
    asked(*letter, numbers)
}
