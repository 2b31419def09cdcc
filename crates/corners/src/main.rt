// Runs the calls on the raw words that its input names, and writes what each of them answers in document 01's numbers.
// "Each public call states what it answers and what every buffer handed to it holds, on every input and refusal": so the
// words may be damaged and the lent lengths wrong.
//
// A line of the input is a word and up to five numbers, with one space between; only the word's first letter is looked at.
//   Table N                   lends N words as the table, each 77
//   List N                    lends N words as the list, each 77
//   Word I V                  puts V in word I of the table
//   Give I V                  puts V in word I of the list
//   view FROM TO              tells words FROM to TO − 1 of the table
//   pairs                     tells all words of the list
//   create F C K A1 A2, make N
//                             tell the answer's number; F is the form
//   query KEY                 tells number, function, place, probes, word and level
//   insert KEY F P, update KEY F P, delete KEY, begin, halve, turn, step, end, recover
//                             tell number, stores and the words of the stores; step tells the placing besides. halve is the call
//                             shrink, and turn the call back
//   all KEY F P               query and each of the other calls in this order, on the same table
//   # ..                      is a remark
// Each line is written as it stands, with what it tells after a colon. Before a call that lists stores every word of the
// list is 77 again, so that a word written beyond the stores is seen.
#![tactic(auto)]

mod cases;
mod lines;

use cases::{Lent, one_line};

// The room is that of a table of c = 4 and one word; the list has four words more than a call asks for.
fn run(text: &[u8]) {
    let mut table = [0; 413];
    let mut stores = [0; 24];
    let mut lent = Lent { table: 0, list: 0 };
    for line in text.split_inclusive(|byte| *byte == b'\n') {
        let line = line.strip_suffix(b"\n").unwrap_or(line);
        lent = one_line(&mut table, &mut stores, lent, line);
    }
}

fn main() {
    let mut text = io::large_buffer();
    let n = io::read_full(0, &mut text);
    run(&text[..n]);
}
