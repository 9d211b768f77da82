// The lines of a buffer, answered through one keeper.
#![tactic(auto)]

pub mod answer;
mod put_back;
