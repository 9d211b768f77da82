// What an accepted command changes in a keeper. The calls test before they step, so each of these may ask for what was tested.
ghost use Rattle.std.specs.Prelude.{◌≡◌, true, false, ◌≤◌, ◌<◌, ◌^◌};
ghost use Rattle.bits.specs.Bits.{bit_of};
ghost use Rattle.refusal.specs.Refusal.{number};
ghost use Rattle.keeper.specs.State.{most_requests};
ghost use Rattle.keeper.specs.Apply.{outcome_of, begun, passed_to, asked, ended, replied, with_flight};
ghost use Rattle.keeper.specs.declared.Answer.TheVariants.{Refused};

use crate::{Answer, Keeper, Outcome};
use moment::Interval;
use refusal::Refusal;
use rules::judge::conflicts_after;
use rules::{Rule, Verdict};

// A refusal: the keeper stays as it was.
pub(crate) fn refused(keeper: Keeper, refusal: Refusal) -> Outcome
    ensures { result ≡ outcome_of (Refused (number refusal)) keeper }
{
    let answer = Answer::Refused(refusal.number());
    Outcome { answer, keeper }
}

// A keeper at its start: all but what the command sets is as in a fresh one. Public for the crate `on_image`, which stores one from its own numbers.
pub fn begun_with(board: u8, rule: Rule, claim: u16, edges: Interval) -> Keeper
    ensures { result ≡ begun board rule claim edges }
{
    Keeper {
        started: true,
        board,
        rule,
        claim,
        edges,
        ..Keeper::fresh()
    }
}

// The keeper with other flight times of the peer.
#[tactic(auto, unfolding(crate::specs::Apply::with_flight))]
pub(crate) fn with_flight(keeper: Keeper, peer: u8, out_time: u32, back_time: u32) -> Keeper
    requires { peer ≤ 15 }
    ensures { result ≡ with_flight keeper peer out_time back_time }
{
    let mut out = keeper.out;
    out[peer as usize] = out_time;
    let mut back = keeper.back;
    back[peer as usize] = back_time;
    Keeper {
        out,
        back,
        ..keeper
    }
}

// The mask of one peer.
fn bit(peer: u8) -> u16
    requires { peer ≤ 15 }
    ensures { result ≡ 2 ^ peer }
{
    1u16 << peer
}

// The keeper with a request to the peer sent now. Here and in the next function the arrays are changed in locals of their own: to store
// an element in the keeper itself, all of it would be copied once more.
pub(crate) fn asked_of(keeper: Keeper, peer: u8) -> Keeper
    requires peer_bound { peer ≤ 15 }
    requires requests_lt_most_requests { keeper.requests < most_requests }
    requires peer_value { bit_of keeper.waiting peer ≡ false }
    ensures { result ≡ asked keeper peer }
{
    let mut tags = keeper.tags;
    tags[peer as usize] = keeper.requests + 1;
    let mut sent_at = keeper.sent_at;
    sent_at[peer as usize] = keeper.ticks;
    Keeper {
        requests: keeper.requests + 1,
        waiting: keeper.waiting + bit(peer),
        tags,
        sent_at,
        ..keeper
    }
}

// The keeper with the peer's request ended.
pub(crate) fn ended_with(keeper: Keeper, peer: u8, edges: Interval, conflicts: u32) -> Keeper
    requires peer_bound { peer ≤ 15 }
    requires peer_value { bit_of keeper.waiting peer ≡ true }
    ensures { result ≡ ended keeper peer edges conflicts }
{
    let mut tags = keeper.tags;
    tags[peer as usize] = 0;
    let mut sent_at = keeper.sent_at;
    sent_at[peer as usize] = 0;
    Keeper {
        edges,
        conflicts,
        waiting: keeper.waiting - bit(peer),
        tags,
        sent_at,
        ..keeper
    }
}

// A reply that was found, by its verdict.
pub(crate) fn replied_with(keeper: Keeper, peer: u8, verdict: Verdict) -> Outcome
    requires peer_bound { peer ≤ 15 }
    requires peer_value { bit_of keeper.waiting peer ≡ true }
    requires conflicts_le_most_requests { keeper.conflicts ≤ most_requests }
    ensures { result ≡ replied keeper peer verdict }
{
    let finding = verdict.finding;
    let conflicts = conflicts_after(keeper.conflicts, finding);
    Outcome {
        answer: Answer::Replied(peer, verdict),
        keeper: ended_with(keeper, peer, verdict.edges, conflicts),
    }
}

// The keeper with the edges and the tick count of a pass.
#[tactic(auto, unfolding(crate::specs::Apply::passed_to, crate::specs::Apply::changed))]
pub(crate) fn passed_to(keeper: Keeper, edges: Interval, ticks: u64) -> Keeper
    ensures { result ≡ passed_to keeper edges ticks }
{
    Keeper {
        edges,
        ticks,
        ..keeper
    }
}
