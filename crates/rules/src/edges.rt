// The rules as functions on edges. Those that ask for something are called by the keeper, which has tested it before, and by `judge`.
ghost use Rattle.std.specs.Prelude.{◌≡◌, true, ◌≤◌};
ghost use Rattle.moment.specs.Intervals.{edges_within, placed};
ghost use Rattle.rules.specs.Rules.{widened, longest_wait, bracket, narrowed, outward, no_wider, adopted, told, centre, error_of};
ghost use Rattle.rules.specs.Spans.{Span};

use moment::intervals::move_edges;
use moment::{Interval, floor_half, longest_span, shortest_span};

// Pass: the lower edge gains the shortest ticks and the upper the longest.
#[tactic(auto, unfolding(crate::specs::Rules::widened))]
pub fn widen(claim: u16, ticks: u32, edges: Interval) -> Option<Interval>
    ensures { result ≡ placed (widened claim ticks edges) }
{
    let lower_by = shortest_span(ticks, claim);
    let upper_by = longest_span(ticks, claim);
    move_edges(edges, lower_by, upper_by)
}

// The bracket of a reply: its leading edge gains the wait, and its trailing edge goes back by the tick that may have begun since the last count.
// What the two frames took at the least, out to the peer and back, narrows it.
#[tactic(auto, unfolding(crate::specs::Rules::bracket, moment::specs::Intervals::edges_within, moment::specs::Moment::in_range))]
pub fn bracket_of(claim: u16, w: u32, out: u32, back: u32, reply: Interval) -> Interval
    requires w_le_longest_wait { w ≤ longest_wait }
    requires reply_value { edges_within reply ≡ true }
    ensures { result ≡ bracket claim w out back reply }
{
    Interval {
        lower: (reply.lower - longest_span(1, claim)) + (back as i64),
        upper: (reply.upper + longest_span(w, claim)) - (out as i64),
    }
}

// Rule im: the larger lower and the smaller upper edge.
#[tactic(auto, using(moment::proofs::Integers::extremes), unfolding(crate::specs::Rules::narrowed))]
pub(crate) fn narrow(bracket: Interval, edges: Interval) -> Interval
    ensures { result ≡ narrowed bracket edges }
{
    Interval {
        lower: bracket.lower.max(edges.lower),
        upper: bracket.upper.min(edges.upper),
    }
}

// Rule mm: how far the wait, and the tick that may have begun since, move each edge of a reply.
#[tactic(auto, using(moment::proofs::Integers::extremes), unfolding(crate::specs::Rules::outward))]
pub fn outward_span(claim: u16, w: u32) -> i64
    ensures { result ≡ outward claim w }
{
    longest_span(w, claim) + longest_span(1, claim)
}

// Rule mm: whether the reply, with the span on either side, is no wider than the edges.
#[tactic(auto, unfolding(crate::specs::Rules::no_wider, moment::specs::Intervals::edges_within, moment::specs::Moment::in_range))]
pub(crate) fn no_wider(span: i64, reply: Interval, edges: Interval) -> bool
    requires span { Span span }
    requires reply_value { edges_within reply ≡ true }
    requires edges_value { edges_within edges ≡ true }
    ensures { result ≡ no_wider span reply edges }
{
    let wide = (reply.upper - reply.lower) + (span + span);
    wide <= edges.upper - edges.lower
}

// Rule mm: both edges moved outward.
#[tactic(auto, unfolding(crate::specs::Rules::adopted, moment::specs::Intervals::edges_within, moment::specs::Moment::in_range))]
pub(crate) fn adopt(span: i64, reply: Interval) -> Interval
    requires span { Span span }
    requires reply_value { edges_within reply ≡ true }
    ensures { result ≡ adopted span reply }
{
    Interval {
        lower: reply.lower - span,
        upper: reply.upper + span,
    }
}

// What is told of a keeper's edges: a reading may leave almost a whole tick after the last count.
#[tactic(auto, unfolding(crate::specs::Rules::told, moment::specs::Intervals::edges_within, moment::specs::Moment::in_range))]
pub fn told_of(claim: u16, edges: Interval) -> Interval
    requires { edges_within edges ≡ true }
    ensures { result ≡ told claim edges }
{
    Interval {
        lower: edges.lower,
        upper: edges.upper + longest_span(1, claim),
    }
}

// Centre and error are those of the told edges, from the keeper's own.
#[tactic(auto, unfolding(crate::specs::Rules::told, crate::specs::Rules::centre, moment::specs::Intervals::edges_within, moment::specs::Moment::in_range))]
pub fn centre_of(claim: u16, edges: Interval) -> i64
    requires { edges_within edges ≡ true }
    ensures { result ≡ centre (told claim edges) }
{
    let shown = told_of(claim, edges);
    floor_half(shown.lower + shown.upper)
}

#[tactic(auto, unfolding(crate::specs::Rules::told, crate::specs::Rules::centre, crate::specs::Rules::error_of, moment::specs::Moment::floor_half, moment::specs::Intervals::edges_within, moment::specs::Moment::in_range))]
pub fn error_of(claim: u16, edges: Interval) -> i64
    requires { edges_within edges ≡ true }
    ensures { result ≡ error_of (told claim edges) }
{
    let shown = told_of(claim, edges);
    let centre = centre_of(claim, edges);
    shown.upper - centre
}
