// A heater's window and the edges that are told of a keeper: document 02, orders 3 and 5.
ghost use Rattle.std.specs.Prelude.{◌≡◌, true};
ghost use Rattle.moment.specs.Intervals.{edges_within};
ghost use Rattle.rules.specs.Rules.{told};
ghost use Rattle.rules.specs.Windows.{window_state};

use crate::WindowState;
use crate::edges::told_of;
use moment::Interval;

// The window runs from its first moment up to its last, which it does not hold. The edges' moments are none of the window's if they end before
// it begins or begin where it has ended, and all inside if none of them is before its first or from its last on.
#[tactic(auto, using(moment::proofs::Integers::extremes), unfolding(crate::specs::Windows::window_state))]
pub fn window_state(window: Interval, claim: u16, edges: Interval) -> WindowState
    requires { edges_within edges ≡ true }
    ensures { result ≡ window_state window (told claim edges) }
{
    let shown = told_of(claim, edges);
    if shown.upper < window.lower || window.upper <= shown.lower {
        WindowState::Shut
    } else if window.lower <= shown.lower && shown.upper < window.upper {
        WindowState::Open
    } else {
        WindowState::Unsure
    }
}
