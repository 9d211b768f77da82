// Digits at full width, with zeros before them where a number has fewer.
ghost use Rattle.std.specs.Prelude.{◌+◌, ◌<◌, ◌≤◌, length};
ghost use Rattle.digits.specs.Width.{last_digits};
ghost use Rattle.text.specs.Output.{Put};

// Two digits at a place; it gives the place after them. One word holds both, the tens in its lower byte, which is stored first:
// 256 * two - 2559 * tens is tens + 256 * ones, and 12336 is '0' in both bytes.
pub fn put_two(part: &mut [u8], at: usize, two: u32) -> usize
    requires two_bound { two < 100 }
    requires at_in_bounds { at + 2 ≤ length part.old }
    ensures { Put part.old at (last_digits 2 two) part.new result }
{
    let word = 256 * two + 12336 - 2559 * (two / 10);
    part[at] = (word % 256) as u8;
    part[at + 1] = (word / 256) as u8;
    at + 2
}

// Four digits at a place.
pub fn put_four(part: &mut [u8], at: usize, four: u32) -> usize
    requires four_bound { four < 10000 }
    requires at_in_bounds { at + 4 ≤ length part.old }
    ensures { Put part.old at (last_digits 4 four) part.new result }
{
    let next = put_two(part, at, four / 100);
    put_two(part, next, four % 100)
}

// Eight digits at a place.
pub(crate) fn put_eight(part: &mut [u8], at: usize, eight: u32) -> usize
    requires eight_bound { eight < 100000000 }
    requires at_in_bounds { at + 8 ≤ length part.old }
    ensures { Put part.old at (last_digits 8 eight) part.new result }
{
    let next = put_four(part, at, eight / 10000);
    put_four(part, next, eight % 10000)
}

// Sixteen digits at a place.
pub(crate) fn put_sixteen(part: &mut [u8], at: usize, sixteen: u64) -> usize
    requires sixteen_bound { sixteen < 10000000000000000 }
    requires at_in_bounds { at + 16 ≤ length part.old }
    ensures { Put part.old at (last_digits 16 sixteen) part.new result }
{
    let next = put_eight(part, at, (sixteen / 100000000) as u32);
    put_eight(part, next, (sixteen % 100000000) as u32)
}
