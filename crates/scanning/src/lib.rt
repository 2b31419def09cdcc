// A scan of the taken slots, linear in the table's words: whether each is in a place of its key, and which keys stand twice.
#![tactic(auto)]

pub mod copies;
pub mod items;
