// What is answered of a heater's window: document 02, orders 3 and 5. It takes claim and edges, and not the keeper, since a window changes nothing in the
// keeper.
ghost use Rattle.std.specs.Prelude.{◌≡◌, true};
ghost use Rattle.moment.specs.Intervals.{edges_within};
ghost use Rattle.rules.specs.Rules.{told};
ghost use Rattle.keeper.specs.Windows.{window_answer};

use crate::Answer;
use calendar::Date;
use command::windows::window_span;
use moment::Interval;
use refusal::Refusal;
use rules::windows::window_state;

// A window has its own refusals before 3. The edges of a keeper that counts as started are within their limits.
pub(crate) fn window_answer(
    started: bool,
    claim: u16,
    edges: Interval,
    slot: u8,
    start: Date,
    end: Date,
) -> Answer
    requires { started ≡ true → edges_within edges ≡ true }
    ensures { result ≡ window_answer started (told claim edges) slot start end }
{
    match window_span(slot as u64, start, end) {
        Err(refusal) => Answer::Refused(refusal.number()),
        Ok(_) if !started => Answer::Refused(Refusal::OutOfTurn.number()),
        Ok(window) => Answer::Heater(slot, window_state(window, claim, edges)),
    }
}
