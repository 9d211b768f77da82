// Base-ten numerals read: document 01, 'Line forms', and document 02, order 4.
#![tactic(auto)]

mod groups;
pub mod read;
