// Commands and their limits: document 01, 'Line forms', and document 02, orders 3 and 7.
#![tactic(auto)]

use calendar::Date;
use moment::Interval;
use refusal::Refusal;
use rules::Rule;

pub mod accept;
pub mod limits;
pub mod windows;

// A command. The reader answers only those whose numbers are within their limits; whether a window's dates exist is asked where it is applied or
// written. Of a reply's edges the lower is TRAILING and the upper LEADING.
#[derive(Clone, Copy)]
pub enum Command {
    Start {
        board: u8,
        rule: Rule,
        claim: u16,
        edges: Interval,
    },
    Pass {
        ticks: u32,
    },
    Request {
        peer: u8,
    },
    Reply {
        peer: u8,
        tag: u32,
        edges: Interval,
    },
    Drop {
        peer: u8,
    },
    Read,
    Waiting,
    Window {
        slot: u8,
        start: Date,
        end: Date,
    },
    Flight {
        peer: u8,
        out: u32,
        back: u32,
    },
}

// What a line is: a command, or refusal 1 where it has no command's shape, and refusal 2 where a number is outside its limits.
pub type Reading = Result<Command, Refusal>;
