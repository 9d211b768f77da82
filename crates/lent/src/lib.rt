// A board lends its keeper to be moved forward: the pass by value, with the keeper that it hands back put in the lent one's place.
#![tactic(auto)]

ghost use Rattle.lent.specs.Lent.{PassLent};

use keeper::Keeper;
use keeper::number::number_of;

pub fn pass_lent(keeper: &mut Keeper, ticks: u32) -> u8
    ensures { PassLent keeper.old ticks result keeper.new }
{
    let outcome = keeper.pass_tested(ticks);
    *keeper = outcome.keeper;
    number_of(outcome.answer)
}

// The number of a pass, and the keeper after it.
#[derive(Clone, Copy)]
pub struct Passed {
    pub number: u8,
    pub keeper: Keeper,
}

// The same for a caller that has the keeper by value: it is lent here, and handed back with the number. A reference to a struct is none of
// the forms whose callers are proved without a walk by hand, so the library calls this one.
pub fn pass(keeper: Keeper, ticks: u32) -> Passed
    ensures { PassLent keeper ticks result.number result.keeper }
{
    let mut own = keeper;
    let number = pass_lent(&mut own, ticks);
    Passed {
        number,
        keeper: own,
    }
}
