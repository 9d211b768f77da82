// The keeper that a command handed back, put in the place of the one before it: only what a command with that answer changes is taken over, so that
// of the arrays a pass, a read, a list, a window and a refused line copy none here, and only a start and a flight those of the flight times
// (docs/PERFORMANCE.md, order 7).
ghost use Rattle.std.specs.Prelude.{◌≡◌};
ghost use Rattle.serve.specs.PutBack.{put_back};

use keeper::{Answer, Keeper};

pub fn put_back(now: Keeper, answer: Answer, after: Keeper) -> Keeper
    ensures { result ≡ put_back now answer after }
{
    match answer {
        Answer::Started(_) | Answer::Flight(_) => after,
        Answer::At(..) => {
            let Keeper { edges, ticks, .. } = after;
            Keeper {
                edges,
                ticks,
                ..now
            }
        }
        Answer::Sent(..) => {
            let Keeper {
                requests,
                waiting,
                tags,
                sent_at,
                ..
            } = after;
            Keeper {
                requests,
                waiting,
                tags,
                sent_at,
                ..now
            }
        }
        Answer::Replied(..) | Answer::Dropped(_) => {
            let Keeper {
                edges,
                conflicts,
                waiting,
                tags,
                sent_at,
                ..
            } = after;
            Keeper {
                edges,
                conflicts,
                waiting,
                tags,
                sent_at,
                ..now
            }
        }
        Answer::Time { .. } | Answer::Waiting | Answer::Heater(..) | Answer::Refused(_) => now,
    }
}
