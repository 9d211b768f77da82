// Bytes of a line: a word read at a place, and bytes put at a place of a lent output.
#![tactic(auto)]

pub mod output;
pub mod words;
