// Intervals: whether two share a moment, whether one lies in the range with its edges in order, and edges that are moved.
ghost use Rattle.std.specs.Prelude.{◌≡◌, ◌+ℤ◌};
ghost use Rattle.moment.specs.Intervals.{interval, share_one, both_in_range, edges_within, placed};

use crate::{Interval, in_range, move_edge};

// Whether some moment lies in both.
#[tactic(auto, using(crate::proofs::Integers::extremes), unfolding(crate::specs::Intervals::share_one))]
pub fn share_a_moment(a: Interval, b: Interval) -> bool
    ensures { result ≡ share_one a b }
{
    a.lower.max(b.lower) <= a.upper.min(b.upper)
}

// Whether both edges lie in the range.
#[tactic(auto, unfolding(crate::specs::Intervals::both_in_range))]
pub fn both_in_range(edges: Interval) -> bool
    ensures { result ≡ both_in_range edges }
{
    in_range(edges.lower) && in_range(edges.upper)
}

// Both in the range, and the first not above the second.
#[tactic(auto, unfolding(crate::specs::Intervals::both_in_range, crate::specs::Intervals::edges_within))]
pub fn edges_within(edges: Interval) -> bool
    ensures { result ≡ edges_within edges }
{
    both_in_range(edges) && edges.lower <= edges.upper
}

// Each edge moved by its own number of nanoseconds, unless one leaves the range.
#[tactic(auto, unfolding(crate::specs::Moment::moved_by, crate::specs::Intervals::placed, crate::specs::Intervals::both_in_range))]
pub fn move_edges(edges: Interval, lower_by: i64, upper_by: i64) -> Option<Interval>
    ensures { result ≡ placed (interval (edges.lower +ℤ lower_by) (edges.upper +ℤ upper_by)) }
{
    Some(Interval {
        lower: move_edge(edges.lower, lower_by)?,
        upper: move_edge(edges.upper, upper_by)?,
    })
}
