// Base-ten numerals written: document 01, 'Line forms', and document 02, order 2.
#![tactic(auto)]

pub mod front;
pub mod width;
pub mod write;
