// The writer of an answer's line and of its LF, whatever the answer is. It is total: where the output has no room for the line, or a list is asked
// of a keeper that does not count as started, what is written is left open.
#![tactic(auto)]

ghost use Rattle.answers.specs.Writing.{LinePut};

use answers::{heater_line, numbered_line, put_refusal, sent_line};
use edge_lines::{at_line, replied_line};
use keeper::{Answer, Keeper};
use time_lines::time_line;
use waiting_lines::waiting_line;

// The line of an answer and its LF, at a place of the output; it gives the place after them. The list of the waiting peers is that of the keeper.
pub fn put_answer(out: &mut [u8], at: usize, answer: Answer, keeper: Keeper) -> usize
    ensures { LinePut answer keeper out.old at out.new result }
{
    match answer {
        Answer::Started(board) => numbered_line(out, at, b"(started ", board),
        Answer::At(ticks, edges) => at_line(out, at, ticks, edges),
        Answer::Sent(peer, tag) => sent_line(out, at, peer, tag),
        Answer::Replied(peer, verdict) => replied_line(out, at, peer, verdict),
        Answer::Dropped(peer) => numbered_line(out, at, b"(dropped ", peer),
        Answer::Time {
            edges,
            centre,
            error,
            conflicts,
            waiting,
        } => time_line(out, at, edges, centre, error, conflicts, waiting),
        // Of the keeper the tags alone are copied: lent from it, all of it would be.
        Answer::Waiting => {
            let tags = keeper.tags;
            waiting_line(out, at, keeper.waiting, &tags)
        }
        Answer::Heater(slot, window) => heater_line(out, at, slot, window),
        Answer::Flight(peer) => numbered_line(out, at, b"(flight ", peer),
        Answer::Refused(n) => put_refusal(out, at, n),
    }
}
