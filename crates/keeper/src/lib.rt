// The keeper of one board's time: document 01, 'Moments and ticks' and 'The calls', and document 02, order 7.
#![tactic(auto)]

use moment::Interval;
use rules::{Rule, Verdict, WindowState};

pub mod calls;
pub mod number;
mod refusals;
mod started;
pub mod steps;
pub mod tested;
mod windows;

// Of each other board (a peer, 0..15): its bit of `waiting` is set while a request to it waits, with the request's tag and the tick
// count when it was sent; a peer with none waiting holds 0 for both. Whether or not one waits, a peer has its flight times, out to it and back from
// it. The order of the fields is one with which the compiler copies little, in the program and in the library (docs/DECISIONS.md 27 and 73).
#[derive(Clone, Copy)]
pub struct Keeper {
    pub sent_at: [u64; 16],
    pub requests: u32,
    pub conflicts: u32,
    pub claim: u16,
    pub waiting: u16,
    pub board: u8,
    pub rule: Rule,
    pub started: bool,
    pub tags: [u32; 16],
    pub edges: Interval,
    pub ticks: u64,
    pub out: [u32; 16],
    pub back: [u32; 16],
}

// What a command answers. `Refused` has the number of the papers' tables.
#[derive(Clone, Copy)]
pub enum Answer {
    Started(u8),
    At(u64, Interval),
    Sent(u8, u32),
    Replied(u8, Verdict),
    Dropped(u8),
    // the edges that are told
    Time {
        edges: Interval,
        centre: i64,
        error: i64,
        conflicts: u32,
        waiting: u32,
    },
    Waiting,
    Heater(u8, WindowState),
    Flight(u8),
    Refused(u8),
}

// The answer, and the keeper handed back.
#[derive(Clone, Copy)]
pub struct Outcome {
    pub answer: Answer,
    pub keeper: Keeper,
}
