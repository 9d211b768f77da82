// The rules on edges, and the verdict on a reply: document 01, 'The calls', from MM-1, MM-2, IM-1 and IM-2 of the report; and what is told of
// edges and windows: document 02, orders 3 and 5; and brackets with flight times: order 7.
#![tactic(auto)]

ghost use Rattle.std.specs.Prelude.{◌≡◌};
ghost use Rattle.rules.specs.Rules.{rule_number, rule_numbered};

use moment::Interval;
use refusal::Refusal;

pub mod edges;
pub mod judge;
pub mod windows;

// The most ticks that a reply may come after its request.
pub const LONGEST_WAIT: u64 = 3600000;

// 'RULE is `im` or `mm`'
#[derive(Clone, Copy, Debug, PartialEq, Eq)]
pub enum Rule {
    Im,
    Mm,
}

// Where a rule is a number, in an image and from C, im is 0 and mm is 1.
impl From<Rule> for u8 {
    ghost from_gives = { λ rule number. number ≡ rule_number rule };

    fn from(rule: Rule) -> u8 {
        match rule {
            Rule::Im => 0,
            Rule::Mm => 1,
        }
    }
}

// A number that is no rule's is outside its limits.
impl TryFrom<u64> for Rule {
    type Error = Refusal;

    ghost try_from_gives = { λ number result. result ≡ rule_numbered number };

    fn try_from(number: u64) -> Result<Rule, Refusal> {
        match number {
            0 => Ok(Rule::Im),
            1 => Ok(Rule::Mm),
            _ => Err(Refusal::OutsideLimits),
        }
    }
}

// What a reply is found to be.
#[derive(Clone, Copy, Debug, PartialEq, Eq)]
pub enum Finding {
    Conflict,
    Taken,
    Kept,
}

// The finding, and the edges that the keeper has after it: those taken, or its own.
#[derive(Clone, Copy, Debug, PartialEq, Eq)]
pub struct Verdict {
    pub finding: Finding,
    pub edges: Interval,
}

// What is told of a window: every moment within the told edges is inside, none is, or some are and some are not.
#[derive(Clone, Copy, Debug, PartialEq, Eq)]
pub enum WindowState {
    Open,
    Shut,
    Unsure,
}
