// Reading a table in lent words: the tests that come first, the words of a bucket, the levels in use and the places of a key.
#![tactic(auto)]

pub mod forms;
pub mod gate;
pub mod header;
pub mod levels;
pub mod places;
pub mod slots;
pub mod tokens;
