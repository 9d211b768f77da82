// Numerals put at a place of the output: the part from there on is lent to what writes at the front of a part.
ghost use Rattle.std.specs.Prelude.{List, ℕ};
ghost use Rattle.numeral.specs.Digits.{digits, signed_digits};
ghost use Rattle.digits.specs.Front.{PutFront};
ghost use Rattle.text.specs.Output.{Put};

use crate::front::{number_front, signed_front};

// What a numeral spells: its digits, and what writes them at the front of a part.
trait Numeral: Copy {
    ghost text: { Self → List ℕ };

    fn put_front(self, part: &mut [u8]) -> Option<usize>
        ensures { PutFront part.old (text self) 0 part.new result };
}

impl Numeral for u64 {
    ghost text = { digits };

    fn put_front(self, part: &mut [u8]) -> Option<usize> {
        number_front(part, self)
    }
}

impl Numeral for i64 {
    ghost text = { signed_digits };

    fn put_front(self, part: &mut [u8]) -> Option<usize> {
        signed_front(part, self)
    }
}

// Puts a numeral at a place of the output and gives the place after it, as `text::output::put_bytes` does.
fn put<N: Numeral>(out: &mut [u8], at: usize, n: N) -> usize
    ensures { Put out.old at (N.text n) out.new result }
{
    if out.len() < at {
        return at;
    }
    at + n.put_front(&mut out[at..]).unwrap_or(0)
}

// Puts the numeral of n.
pub fn put_number(out: &mut [u8], at: usize, n: u64) -> usize
    ensures { Put out.old at (digits n) out.new result }
{
    put(out, at, n)
}

// Puts the numeral of a signed number.
pub fn put_signed(out: &mut [u8], at: usize, z: i64) -> usize
    ensures { Put out.old at (signed_digits z) out.new result }
{
    put(out, at, z)
}
