// A keeper and whether it counts as started, so that the calls need not test it again.
ghost use Rattle.std.specs.Prelude.{◌≡◌};
ghost use Rattle.keeper.specs.State.{counts_as_started};

use crate::Keeper;

#[derive(Clone, Copy)]
pub struct Tested {
    pub keeper: Keeper,
    pub started: bool,
    pub ghost counted: { started ≡ counts_as_started keeper },
}

impl Tested {
    // Who is handed a keeper tests it; who makes one call after the other on a keeper of its own knows what the test would say.
    pub fn of(keeper: Keeper) -> Tested
        ensures { result.keeper ≡ keeper }
    {
        Tested {
            keeper,
            started: keeper.counts_as_started(),
        }
    }
}
