// The bits of a mask of sixteen. Both functions are total: a number above 15 is no place of it.
#![tactic(auto)]

ghost use Rattle.std.specs.Prelude.{◌≡◌};
ghost use Rattle.bits.specs.Bits.{bit_of};
ghost use Rattle.bits.specs.Below.{count_below};

const PLACES: u8 = 16;

// Whether the bit of a place is set.
pub fn bit_of(mask: u16, place: u8) -> bool
    ensures { result ≡ bit_of mask place }
{
    if PLACES <= place {
        return false;
    }
    (mask >> place) % 2 == 1
}

// How many bits are set.
pub fn count_of(mask: u16) -> u32
    ensures { result ≡ count_below 16 (bit_of mask) }
{
    u16::count_ones(mask)
}
