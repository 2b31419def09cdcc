// A ledger part by part, so that an input of any length runs in little memory: the bytes of a line are held until its newline comes.
#![tactic(auto)]

ghost use Rattle.std.specs.Prelude.{ℕ, List, ltb};
ghost use Rattle.crediting.specs.Books.{at_end, Turned};
ghost use Rattle.posting.specs.Posts.{begun, no_line, line_ended, after_byte, after_bytes, post_of, PostIs};

use crediting::Ledger;
use running::{LINE_ROOM, hold};

// Where the bytes before have led to: the ledger, and how many bytes of a line are held.
#[derive(Clone, Copy)]
pub struct Posting {
    pub ledger: Ledger,
    pub line: [u8; LINE_ROOM],
    pub held: usize,
}

impl Posting {
    // Before the first byte.
    pub fn new() -> Posting
        ensures { (room : List ℕ) → PostIs (begun room no_line) result room }
    {
        Posting {
            ledger: Ledger::new(),
            line: [0; LINE_ROOM],
            held: 0,
        }
    }

    // The line that is held has ended.
    fn end_line(&mut self, room: &mut [u64])
        ensures { PostIs (line_ended (post_of self.old room.old)) self.new room.new }
    {
        let count = self.held.min(LINE_ROOM);
        self.ledger.take_line(room, &self.line[..count]);
        self.held = 0;
    }

    // One byte more: a newline, or a byte of a line, which is held as far as there is place.
    fn take_byte(&mut self, room: &mut [u64], byte: u8)
        ensures { PostIs (after_byte (post_of self.old room.old) byte) self.new room.new }
    {
        if byte == b'\n' {
            self.end_line(room);
        } else {
            let held = self.held;
            self.held = hold(&mut self.line, held, byte);
        }
    }

    // What a part of the input makes of it.
    pub fn take_part(&mut self, room: &mut [u64], part: &[u8])
        ensures { PostIs (after_bytes (post_of self.old room.old) part.now) self.new room.new }
    {
        for byte in part {
            self.take_byte(room, *byte);
        }
    }

    // The end of the input. What no newline ends is a torn line.
    pub fn end(&mut self, room: &mut [u64])
        ensures { Turned (at_end (ltb 0 self.old.held)) self.old.ledger room.old self.new.ledger room.new }
    {
        self.ledger.finish(room, 0 < self.held);
    }
}
