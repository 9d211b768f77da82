// A window's span, or why it is refused before a keeper is looked at: document 02, order 3.
ghost use Rattle.std.specs.Prelude.{◌≡◌};
ghost use Rattle.command.specs.Windows.{window_span};

use crate::limits::{limit, slot_within};
use calendar::Date;
use calendar::convert::moment_of;
use moment::Interval;
use refusal::Refusal;

// The window's first moment and its last, which it does not hold; else 2, then 11, then 12.
#[tactic(auto, unfolding(crate::specs::Windows::window_span, crate::specs::Causes::first, calendar::specs::Conversion::moment_result))]
pub fn window_span(slot: u64, start: Date, end: Date) -> Result<Interval, Refusal>
    ensures { result ≡ window_span slot start end }
{
    limit(slot_within(slot))?;
    let lower = moment_of(start)?;
    let upper = moment_of(end)?;
    if upper <= lower {
        return Err(Refusal::EmptyWindow);
    }
    Ok(Interval { lower, upper })
}
