// Whether a keeper that is handed in counts as started: document 01, 'Moments and ticks', and document 02, order 7.
ghost use Rattle.std.specs.Prelude.{◌≡◌};
ghost use Rattle.keeper.specs.State.{numbers_kept, counts_as_started};

use crate::Keeper;
use bits::{bit_of, count_of};
use command::limits::{board_within, claim_within};
use flights::flights_kept;
use moment::Interval;
use moment::intervals::edges_within;
use peers::peers_kept;

pub const MOST_TICKS: u64 = 4000000000000000000;

pub const MOST_REQUESTS: u32 = 16777215;

// The numbers that are no peer's are within their limits and the edges in order.
#[tactic(auto, unfolding(crate::specs::State::numbers_kept))]
fn numbers_kept(board: u8, claim: u16, edges: Interval, ticks: u64, requests: u32) -> bool
    ensures { result ≡ numbers_kept board claim edges ticks requests }
{
    board_within(board as u64)
        && claim_within(claim as u64)
        && edges_within(edges)
        && ticks <= MOST_TICKS
        && requests <= MOST_REQUESTS
}

impl Keeper {
    // Not every keeper that a caller can make is one that a run makes: one that is not is as one not started.
    #[tactic(auto, unfolding(crate::specs::State::counts_as_started))]
    pub fn counts_as_started(self) -> bool
        ensures { result ≡ counts_as_started self }
    {
        // The arrays are lent from locals of their own: to lend a field of `self`, all of `self` would be copied first.
        let tags = self.tags;
        let sent_at = self.sent_at;
        let out = self.out;
        let back = self.back;
        self.started
            && numbers_kept(
                self.board,
                self.claim,
                self.edges,
                self.ticks,
                self.requests,
            )
            && (self.conflicts as u64) + (count_of(self.waiting) as u64) <= self.requests as u64
            && !bit_of(self.waiting, self.board)
            && peers_kept(self.waiting, self.requests, self.ticks, &tags, &sent_at)
            && flights_kept(&out, &back)
    }
}
