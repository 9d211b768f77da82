// The places of the bits that are set in a mask of sixteen, lowest first: `for p in Places::of(mask)`.
#![tactic(auto)]

ghost use Rattle.std.specs.Prelude.{◌≡◌};
ghost use Rattle.std.specs.Iterator.{at_most};
ghost use Rattle.places.specs.Places.{Gives};

// The mask of the places that are left.
#[derive(Clone, Copy)]
pub struct Places {
    rest: u16,
}

impl Places {
    // The places of all bits that are set.
    pub fn of(mask: u16) -> Places
        ensures { result.rest ≡ mask }
    {
        Places { rest: mask }
    }
}

impl Iterator for Places {
    type Item = usize;

    ghost next_gives = { λ s r t. Gives s.rest r t.rest };

    ghost remaining = { λ s. at_most s.rest };

    fn next(&mut self) -> Option<usize> {
        let rest = self.rest;
        if rest == 0 {
            return None;
        }
        self.rest = rest & (rest - 1);
        Some(u16::trailing_zeros(rest) as usize)
    }
}
