// Groups of three digits, a '_' before each: what follows the first group of a numeral.
ghost use Rattle.std.specs.Prelude.{◌≡◌, ◌≤◌, length, drop};
ghost use Rattle.numeral.specs.Progress.{Counted, group_number};
ghost use Rattle.numeral.specs.Reading.{groups_from};

use crate::read::{digit, numeral_ends};

// The number of the group at a place, a '_' and three digits.
fn group_at(line: &[u8], at: usize) -> Option<u64>
    requires { at ≤ length line.now }
    ensures { result ≡ group_number (drop at line.now) }
{
    if line.len() - at < 4 || line[at] != b'_' {
        return None;
    }
    let a = digit(line[at + 1]);
    let b = digit(line[at + 2]);
    let c = digit(line[at + 3]);
    if 9 < a || 9 < b || 9 < c {
        return None;
    }
    Some(a * 100 + b * 10 + c)
}

// The numeral whose digits are read up to a place, and the groups that stand there. Sixteen digits leave room for a group, of nineteen in all;
// a group more is a '_' with which the numeral goes on.
pub(crate) fn read_groups(
    line: &[u8],
    mut value: u64,
    mut count: usize,
    mut next: usize,
) -> Option<(u64, usize)>
    requires { Counted line.now value count next }
    ensures { result ≡ groups_from value count next (drop next line.now) }
{
    while count <= 16 {
        let Some(group) = group_at(line, next) else {
            break;
        };
        value = value * 1000 + group;
        count += 3;
        next += 4;
    }
    if !numeral_ends(line, next) {
        return None;
    }
    Some((value, next))
}
