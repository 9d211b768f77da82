// From the numbers of a shape to its command, or refusal 2.
ghost use Rattle.std.specs.Prelude.{◌≡◌};
ghost use Rattle.command.specs.Forms.{start, pass, request, reply, drop, window, flight};
ghost use Rattle.command.specs.Limits.{limited};
ghost use Rattle.command.specs.Edges.{edge_value, integer_of};
ghost use Rattle.moment.specs.Intervals.{interval, bounds_of};

use crate::limits::{
    board_within, claim_within, flight_within, limit, slot_within, tag_within, ticks_within,
};
use crate::{Command, Reading};
use calendar::Date;
use moment::Interval;
use moment::intervals::edges_within;
use numeral::read::Signed;
use refusal::Refusal;
use rules::Rule;

// An edge as an i64, unless it is too far from 0 to be one: nineteen digits may exceed it.
#[tactic(auto, unfolding(crate::specs::Edges::integer_of))]
fn integer_of(edge: Signed) -> Option<i64>
    ensures { result ≡ integer_of edge }
{
    let magnitude = i64::try_from(edge.magnitude).ok()?;
    Some(if edge.negative { -magnitude } else { magnitude })
}

#[tactic(auto, using(crate::proofs::LimitLaws::found_edge, crate::proofs::LimitLaws::far_edge), unfolding(moment::specs::Intervals::bounds_of, moment::specs::Intervals::edges_within))]
fn bounds_of(first: Signed, second: Signed) -> Option<Interval>
    ensures { result ≡ bounds_of (interval (edge_value first) (edge_value second)) }
{
    let edges = Interval {
        lower: integer_of(first)?,
        upper: integer_of(second)?,
    };
    edges_within(edges).then_some(edges)
}

#[tactic(auto, unfolding(crate::specs::Limits::limited, crate::specs::Limits::board_within, crate::specs::Limits::claim_within, moment::specs::Intervals::bounds_of))]
pub fn accept_start(board: u64, rule: Rule, claim: u64, first: Signed, second: Signed) -> Reading
    ensures { result ≡ limited (start board rule claim (interval (edge_value first) (edge_value second))) }
{
    limit(board_within(board))?;
    limit(claim_within(claim))?;
    let edges = bounds_of(first, second).ok_or(Refusal::OutsideLimits)?;
    Ok(Command::Start {
        board: board as u8,
        rule,
        claim: claim as u16,
        edges,
    })
}

#[tactic(auto, unfolding(crate::specs::Limits::limited, crate::specs::Limits::ticks_within))]
pub fn accept_pass(ticks: u64) -> Reading
    ensures { result ≡ limited (pass ticks) }
{
    limit(ticks_within(ticks))?;
    Ok(Command::Pass {
        ticks: ticks as u32,
    })
}

#[tactic(auto, unfolding(crate::specs::Limits::limited, crate::specs::Limits::board_within))]
pub fn accept_request(peer: u64) -> Reading
    ensures { result ≡ limited (request peer) }
{
    limit(board_within(peer))?;
    Ok(Command::Request { peer: peer as u8 })
}

#[tactic(auto, unfolding(crate::specs::Limits::limited, crate::specs::Limits::board_within, crate::specs::Limits::tag_within, moment::specs::Intervals::bounds_of))]
pub fn accept_reply(peer: u64, tag: u64, first: Signed, second: Signed) -> Reading
    ensures { result ≡ limited (reply peer tag (interval (edge_value first) (edge_value second))) }
{
    limit(board_within(peer))?;
    limit(tag_within(tag))?;
    let edges = bounds_of(first, second).ok_or(Refusal::OutsideLimits)?;
    Ok(Command::Reply {
        peer: peer as u8,
        tag: tag as u32,
        edges,
    })
}

#[tactic(auto, unfolding(crate::specs::Limits::limited, crate::specs::Limits::board_within))]
pub fn accept_drop(peer: u64) -> Reading
    ensures { result ≡ limited (drop peer) }
{
    limit(board_within(peer))?;
    Ok(Command::Drop { peer: peer as u8 })
}

// The dates are taken as they were read, whether they exist or not.
#[tactic(auto, unfolding(crate::specs::Limits::limited, crate::specs::Limits::slot_within))]
pub fn accept_window(slot: u64, start: Date, end: Date) -> Reading
    ensures { result ≡ limited (window slot start end) }
{
    limit(slot_within(slot))?;
    Ok(Command::Window {
        slot: slot as u8,
        start,
        end,
    })
}

#[tactic(auto, unfolding(crate::specs::Limits::limited, crate::specs::Limits::board_within, flights::specs::Flights::flight_within))]
pub fn accept_flight(peer: u64, out: u64, back: u64) -> Reading
    ensures { result ≡ limited (flight peer out back) }
{
    limit(flight_within(peer, out, back))?;
    Ok(Command::Flight {
        peer: peer as u8,
        out: out as u32,
        back: back as u32,
    })
}
