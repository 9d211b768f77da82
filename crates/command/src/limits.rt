// The limits of each number: document 01, 'Line forms' and 'Moments and ticks', and document 02, orders 3 and 7. Each stands here once,
// but that of a flight time, which a keeper's times have too: `flights` has it.
ghost use Rattle.std.specs.Prelude.{◌≡◌, ◌&&◌};
ghost use Rattle.command.specs.Limits.{unless_broken, board_within, claim_within, ticks_within, tag_within, slot_within};
ghost use Rattle.moment.specs.Intervals.{edges_within};
ghost use Rattle.flights.specs.Flights.{flight_within};

use flights::time_within;
use moment::Interval;
use moment::intervals::edges_within;
use refusal::Refusal;

pub const LAST_BOARD: u64 = 15;

pub const MOST_CLAIM: u64 = 50000;

pub const MOST_TICKS: u64 = 86400000;

pub const MOST_TAG: u64 = 16777215;

pub const LAST_SLOT: u64 = 15;

// Refusal 2, unless the limits are kept.
pub(crate) fn limit(kept: bool) -> Result<(), Refusal>
    ensures { result ≡ unless_broken kept }
{
    if kept {
        Ok(())
    } else {
        Err(Refusal::OutsideLimits)
    }
}

// A board, or a peer.
#[tactic(auto, unfolding(crate::specs::Limits::board_within))]
pub fn board_within(board: u64) -> bool
    ensures { result ≡ board_within board }
{
    board <= LAST_BOARD
}

#[tactic(auto, unfolding(crate::specs::Limits::claim_within))]
pub fn claim_within(claim: u64) -> bool
    ensures { result ≡ claim_within claim }
{
    claim <= MOST_CLAIM
}

// The ticks of one pass.
#[tactic(auto, unfolding(crate::specs::Limits::ticks_within))]
pub fn ticks_within(ticks: u64) -> bool
    ensures { result ≡ ticks_within ticks }
{
    ticks <= MOST_TICKS
}

#[tactic(auto, unfolding(crate::specs::Limits::tag_within))]
pub fn tag_within(tag: u64) -> bool
    ensures { result ≡ tag_within tag }
{
    1 <= tag && tag <= MOST_TAG
}

// A heater's slot.
#[tactic(auto, unfolding(crate::specs::Limits::slot_within))]
pub fn slot_within(slot: u64) -> bool
    ensures { result ≡ slot_within slot }
{
    slot <= LAST_SLOT
}

// The numbers of a start.
pub fn start_within(board: u64, claim: u64, edges: Interval) -> bool
    ensures { result ≡ board_within board && claim_within claim && edges_within edges }
{
    board_within(board) && claim_within(claim) && edges_within(edges)
}

// The numbers of a reply.
pub fn reply_within(peer: u64, tag: u64, edges: Interval) -> bool
    ensures { result ≡ board_within peer && tag_within tag && edges_within edges }
{
    board_within(peer) && tag_within(tag) && edges_within(edges)
}

// The numbers of a flight: neither time bounds the other.
pub fn flight_within(peer: u64, out: u64, back: u64) -> bool
    ensures { result ≡ board_within peer && flight_within out && flight_within back }
{
    board_within(peer) && time_within(out) && time_within(back)
}
