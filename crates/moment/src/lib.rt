// Moments and ticks: document 01, 'Moments and ticks'. Every function is total: it answers for all arguments.
#![tactic(auto)]

ghost use Rattle.std.specs.Prelude.{◌≡◌, ◌*◌, pos};
ghost use Rattle.moment.specs.Moment.{in_range, shortest, longest, moved_by, floor_half};

pub mod intervals;

// The range of moments, in nanoseconds from the epoch.
pub const EARLIEST: i64 = -4000000000000000000;

pub const LATEST: i64 = 4000000000000000000;

// A lower and an upper edge. It holds the moments from one through the other, and none if they are not in order.
#[derive(Clone, Copy, Debug, PartialEq, Eq)]
pub struct Interval {
    pub lower: i64,
    pub upper: i64,
}

#[tactic(auto, unfolding(crate::specs::Moment::in_range))]
pub fn in_range(m: i64) -> bool
    ensures { result ≡ in_range m }
{
    EARLIEST <= m && m <= LATEST
}

// The least time that `ticks` ticks take by the claim.
pub fn shortest_span(ticks: u32, claim: u16) -> i64
    ensures { result ≡ pos (ticks * shortest claim) }
{
    (ticks as i64) * (1000000 - (claim as i64))
}

// The most time that `ticks` ticks take by the claim.
pub fn longest_span(ticks: u32, claim: u16) -> i64
    ensures { result ≡ pos (ticks * longest claim) }
{
    (ticks as i64) * (1000000 + (claim as i64))
}

// The edge moved by `by` nanoseconds, which may be negative, unless it leaves the range.
#[tactic(auto, unfolding(crate::specs::Moment::moved_by, crate::specs::Moment::in_range))]
pub fn move_edge(edge: i64, by: i64) -> Option<i64>
    ensures { result ≡ moved_by edge by }
{
    edge.checked_add(by).filter(|to| in_range(*to))
}

// Half of a sum of edges, rounded toward minus infinity: the shift copies the sign.
#[tactic(auto, unfolding(crate::specs::Moment::floor_half))]
pub fn floor_half(sum: i64) -> i64
    ensures { result ≡ floor_half sum }
{
    sum >> 1
}
