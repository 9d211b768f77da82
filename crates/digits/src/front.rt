// Numerals written at the front of a part of the output: each digit into its place, the first one first. A number is divided into its last digits
// and what stands before them, until one or two digits are left, which are its first. Then the length of the numeral is known: these, and as many
// as were divided off. Nothing is stored before that, nor unless the part has room for all.
ghost use Rattle.std.specs.Prelude.{◌<◌, ◌≤◌};
ghost use Rattle.numeral.specs.Digits.{digits, signed_digits};
ghost use Rattle.digits.specs.Front.{PutFront};

use crate::width::{put_eight, put_four, put_sixteen, put_two};

// Writes the numeral of n, which has at most two digits, at the front of the part and gives its length, if the part has room for it and for `more`
// bytes behind it; else nothing is touched. No numeral has more than 20 digits, so that `more` is at most 18.
fn two_front(part: &mut [u8], n: u32, more: usize) -> Option<usize>
    requires n_bound { n < 100 }
    requires more_bound { more ≤ 18 }
    ensures { PutFront part.old (digits n) more part.new result }
{
    if n < 10 {
        if part.len() < 1 + more {
            return None;
        }
        part[0] = (48 + n) as u8;
        return Some(1);
    }
    if part.len() < 2 + more {
        return None;
    }
    Some(put_two(part, 0, n))
}

// As `two_front`, of at most four digits.
fn four_front(part: &mut [u8], n: u32, more: usize) -> Option<usize>
    requires n_bound { n < 10000 }
    requires more_bound { more ≤ 16 }
    ensures { PutFront part.old (digits n) more part.new result }
{
    if n < 100 {
        return two_front(part, n, more);
    }
    let at = two_front(part, n / 100, 2 + more)?;
    Some(put_two(part, at, n % 100))
}

// As `two_front`, of at most eight digits.
fn eight_front(part: &mut [u8], n: u32, more: usize) -> Option<usize>
    requires n_bound { n < 100000000 }
    requires more_bound { more ≤ 8 }
    ensures { PutFront part.old (digits n) more part.new result }
{
    if n < 10000 {
        return four_front(part, n, more);
    }
    let at = four_front(part, n / 10000, 4 + more)?;
    Some(put_four(part, at, n % 10000))
}

// Writes the numeral of n at the front of the part and gives its length. Where it does not fit, nothing is touched, and none is given.
pub fn number_front(part: &mut [u8], n: u64) -> Option<usize>
    ensures { PutFront part.old (digits n) 0 part.new result }
{
    if n < 100000000 {
        return eight_front(part, n as u32, 0);
    }
    if n < 10000000000000000 {
        let at = eight_front(part, (n / 100000000) as u32, 8)?;
        return Some(put_eight(part, at, (n % 100000000) as u32));
    }
    let at = four_front(part, (n / 10000000000000000) as u32, 16)?;
    Some(put_sixteen(part, at, n % 10000000000000000))
}

// As `number_front`, of a signed number: its magnitude, and one '-' before it if it is negative. The '-' is stored last, since only the digits'
// length tells whether both fit.
pub fn signed_front(part: &mut [u8], z: i64) -> Option<usize>
    ensures { PutFront part.old (signed_digits z) 0 part.new result }
{
    let n = z.unsigned_abs();
    if z < 0 {
        if part.is_empty() {
            return None;
        }
        let count = number_front(&mut part[1..], n)?;
        part[0] = b'-';
        return Some(1 + count);
    }
    number_front(part, n)
}
