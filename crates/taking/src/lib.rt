// The reading of an input that comes in parts, of any sizes and any number, for programs that write only once all is read.
#![tactic(auto)]

ghost use Rattle.std.specs.Prelude.{◌≡◌, Bool, List, ℕ};
ghost use Rattle.running.specs.Inputs.{Standing, standing, known_in, Takes, ReadSome, Ran};

use running::{LINE_ROOM, Outcome};
use std::io::{Read, Stdin};

// What takes an input part by part, in lent words and in the bytes of a line.
pub trait Taker: Copy {
    ghost after_part: { Standing Self → List ℕ → Standing Self };

    ghost has_ended: { Self → Bool };

    // Whether all that will be written is known, whatever comes.
    fn known(self) -> bool
        ensures { result ≡ has_ended self };

    fn take_part(self, room: &mut [u64], line: &mut [u8; LINE_ROOM], part: &[u8]) -> Self
        ensures { standing result room.new line.new ≡ after_part (standing self room.old line.old) part.now };

    ghost laws: { Takes after_part };
}

#[derive(Clone, Copy)]
pub struct Turn<T> {
    pub taker: T,
    pub outcome: Outcome,
}

// Reads once, unless all is known, and takes what came.
fn read_some<T: Taker>(
    mut stdin: Stdin,
    taker: T,
    room: &mut [u64],
    line: &mut [u8; LINE_ROOM],
    input: &mut [u8],
) -> Turn<T>
    ensures { ReadSome T.after_part (known_in T.has_ended) (standing taker room.old line.old) input.new result.outcome
        (standing result.taker room.new line.new) }
{
    if taker.known() {
        return Turn {
            taker,
            outcome: Outcome::Known,
        };
    }
    match stdin.read(input) {
        Ok(0) => Turn {
            taker,
            outcome: Outcome::Ended,
        },
        Ok(n) => Turn {
            taker: taker.take_part(room, line, &input[..n]),
            outcome: Outcome::Going,
        },
        Err(_) => Turn {
            taker,
            outcome: Outcome::Unread,
        },
    }
}

// A proved loop has to end, and nothing says that the input does. So the parts are counted, up to a number that no run comes to.
pub fn read_all<T: Taker>(
    stdin: Stdin,
    start: T,
    room: &mut [u64],
    line: &mut [u8; LINE_ROOM],
    input: &mut [u8],
) -> Turn<T>
    ensures { Ran T.after_part (known_in T.has_ended) (standing start room.old line.old) result.outcome
        (standing result.taker room.new line.new) }
{
    let mut taker = start;
    for _parts in 0..u64::MAX {
        let turn = read_some(stdin, taker, room, line, input);
        let Outcome::Going = turn.outcome else {
            return turn;
        };
        taker = turn.taker;
    }
    Turn {
        taker,
        outcome: Outcome::Going,
    }
}
