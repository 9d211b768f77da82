// The refusals of the commands that name a peer. The causes are tried in document 01's order, and the first that holds is the error.
ghost use Rattle.std.specs.Prelude.{◌≡◌, ◌++◌};
ghost use Rattle.command.specs.Causes.{first, own_causes};
ghost use Rattle.command.specs.declared.Command.TheVariants as C;
ghost use Rattle.refusal.specs.Refusal.{number_of};
ghost use Rattle.keeper.specs.State.{state_of};
ghost use Rattle.keeper.specs.Refusals.{peer_causes, wait_causes, refusal};

use crate::started::MOST_REQUESTS;
use crate::tested::Tested;
use bits::bit_of;
use command::limits::{board_within, flight_within, reply_within};
use moment::Interval;
use refusal::Refusal;
use rules::LONGEST_WAIT;

// The causes 3 and 4.
fn peer_refusal(tested: Tested, peer: u8) -> Result<(), Refusal>
    ensures { number_of result ≡ first (peer_causes (state_of tested.keeper) peer) }
{
    let Tested { keeper, started } = tested;
    if !started {
        return Err(Refusal::OutOfTurn);
    }
    if peer == keeper.board {
        return Err(Refusal::OwnBoard);
    }
    Ok(())
}

pub(crate) fn request_refusal(tested: Tested, peer: u8) -> Result<(), Refusal>
    ensures { number_of result ≡ refusal (state_of tested.keeper) (C.Request peer) }
{
    let keeper = tested.keeper;
    if !board_within(peer as u64) {
        return Err(Refusal::OutsideLimits);
    }
    peer_refusal(tested, peer)?;
    if bit_of(keeper.waiting, peer) {
        return Err(Refusal::PeerWaits);
    }
    if MOST_REQUESTS <= keeper.requests {
        return Err(Refusal::TagsUsedUp);
    }
    Ok(())
}

// Those of a reply that come before its verdict.
pub(crate) fn wait_refusal(
    tested: Tested,
    peer: u8,
    tag: u32,
    edges: Interval,
) -> Result<(), Refusal>
    ensures { number_of result ≡ first (own_causes (C.Reply peer tag edges) ++ wait_causes (state_of tested.keeper) peer tag) }
{
    let keeper = tested.keeper;
    if !reply_within(peer as u64, tag as u64, edges) {
        return Err(Refusal::OutsideLimits);
    }
    peer_refusal(tested, peer)?;
    if !bit_of(keeper.waiting, peer) {
        return Err(Refusal::NoRequest);
    }
    // Each array is read from a local of its own: to read an element of the keeper, all of it would be copied first.
    let tags = keeper.tags;
    if tag != tags[peer as usize] {
        return Err(Refusal::NoRequest);
    }
    let sent_at = keeper.sent_at;
    if LONGEST_WAIT < keeper.ticks - sent_at[peer as usize] {
        return Err(Refusal::TooLate);
    }
    Ok(())
}

pub(crate) fn drop_refusal(tested: Tested, peer: u8) -> Result<(), Refusal>
    ensures { number_of result ≡ refusal (state_of tested.keeper) (C.Drop peer) }
{
    let keeper = tested.keeper;
    if !board_within(peer as u64) {
        return Err(Refusal::OutsideLimits);
    }
    peer_refusal(tested, peer)?;
    if !bit_of(keeper.waiting, peer) {
        return Err(Refusal::NoRequest);
    }
    Ok(())
}

pub(crate) fn flight_refusal(tested: Tested, peer: u8, out: u32, back: u32) -> Result<(), Refusal>
    ensures { number_of result ≡ refusal (state_of tested.keeper) (C.Flight peer out back) }
{
    let keeper = tested.keeper;
    if !flight_within(peer as u64, out as u64, back as u64) {
        return Err(Refusal::OutsideLimits);
    }
    peer_refusal(tested, peer)?;
    if bit_of(keeper.waiting, peer) {
        Err(Refusal::PeerWaits)
    } else {
        Ok(())
    }
}
