// Numerals read: a run of digits, with groups after it or none, with or without a minus before it.
ghost use Rattle.std.specs.Prelude.{◌≡◌, ◌+◌, ◌≤◌, length, drop, IfSome};
ghost use Rattle.numeral.specs.Progress.{TellsDigit, digits_end, DigitsAt, Progress, Ended, EndedInside, GoesOn, Stopped, DigitsUpTo};
ghost use Rattle.numeral.specs.Reading.{numeral_ends, number_at, signed_at};

use crate::groups::read_groups;
use text::words::word_at;

// A signed numeral's sign and magnitude, whose range is not looked at yet: nineteen digits may exceed an i64.
#[derive(Clone, Copy)]
pub struct Signed {
    pub negative: bool,
    pub magnitude: u64,
}

// The byte less 48, modulo 2^64: the number of a digit, and above 9 for any other byte, so that one comparison tells a digit.
pub(crate) fn digit(b: u8) -> u64
    ensures { TellsDigit b result }
{
    std::num::wrapping_sub_u64(b as u64, 48)
}

// The place up to which digits are read: the end of the line, or nineteen bytes on. Nineteen digits fit a u64.
fn digits_end(length: usize, at: usize) -> usize
    ensures { result ≡ digits_end length at }
{
    if length < at {
        return at;
    }
    at + (length - at).min(19)
}

// At a place stands neither a digit nor a '_', or the line has ended.
pub(crate) fn numeral_ends(line: &[u8], at: usize) -> bool
    ensures { result ≡ numeral_ends (drop at line.now) }
{
    let Some(&after) = line.get(at) else {
        return true;
    };
    after != b'_' && 9 < digit(after)
}

// The answer where the numeral ends at the place up to which digits are read. A 0 before others, or no digit at all, is no numeral.
fn ended(line: &[u8], at: usize, value: u64, next: usize) -> Option<(u64, usize)>
    requires { Ended line.now at value next }
    ensures { result ≡ number_at line.now at }
{
    let count = next - at;
    if count == 0 || 1 < count && line[at] == b'0' {
        return None;
    }
    Some((value, next))
}

// As `ended`, where a byte follows the numeral. It asks for the value and the first two bytes, and not for the number of digits, which the loop would
// otherwise count beside the place.
fn ended_inside(line: &[u8], at: usize, value: u64, next: usize) -> Option<(u64, usize)>
    requires { EndedInside line.now at value next }
    ensures { result ≡ number_at line.now at }
{
    if line[at] == b'0' {
        if digit(line[at + 1]) <= 9 {
            return None;
        }
    } else if value == 0 {
        return None;
    }
    Some((value, next))
}

// The answer where a '_' follows the digits up to a place, or a twentieth digit does. They are a first group only if they are one to three, and the
// first is no 0.
fn first_group(line: &[u8], at: usize, value: u64, next: usize) -> Option<(u64, usize)>
    requires { GoesOn line.now at value next }
    ensures { result ≡ number_at line.now at }
{
    let count = next - at;
    if count == 0 || 3 < count || line[at] == b'0' {
        return None;
    }
    read_groups(line, value, count, next)
}

// The answer where the digits up to a place are read, and a '_', a twentieth digit or no byte at all follows them. Most numerals never come here,
// so that this is not compiled into what reads them.
fn stopped(line: &[u8], at: usize, value: u64, next: usize) -> Option<(u64, usize)>
    requires { Stopped line.now at value next }
    ensures { result ≡ number_at line.now at }
{
    if numeral_ends(line, next) {
        ended(line, at, value, next)
    } else {
        first_group(line, at, value, next)
    }
}

// The number of the digits that are read, the place after them, and whether the byte there is known to be neither a digit nor a '_'.
#[derive(Clone, Copy)]
struct DigitsRead {
    value: u64,
    next: usize,
    ends: bool,
}

// Reads on from a place up to which digits are read, a digit a turn. Only the byte that is no digit is compared with '_', one comparison a numeral.
fn read_on(line: &[u8], at: usize, mut value: u64, mut next: usize, end: usize) -> DigitsRead
    requires { Progress line.now at value next × (end ≡ digits_end (length line.now) at) }
    ensures { DigitsUpTo line.now at result.value result.next result.ends }
{
    while next < end {
        let b = line[next];
        let d = digit(b);
        if 9 < d {
            return DigitsRead {
                value,
                next,
                ends: b != b'_',
            };
        }
        value = value * 10 + d;
        next += 1;
    }
    DigitsRead {
        value,
        next,
        ends: false,
    }
}

// The number of the four digits at a place. Where one of the four bytes is no digit nothing is promised: they are read again, one by one.
fn four_digits(line: &[u8], at: usize) -> Option<u64>
    requires { at + 4 ≤ length line.now }
    ensures { IfSome result (λ n. DigitsAt line.now at 4 n) }
{
    let a = digit(line[at]);
    let b = digit(line[at + 1]);
    let c = digit(line[at + 2]);
    let d = digit(line[at + 3]);
    if 9 < a || 9 < b || 9 < c || 9 < d {
        return None;
    }
    Some(a * 1000 + b * 100 + c * 10 + d)
}

// The numeral at a place, plain or in groups; where it may be long, in fewer steps: four digits a turn as long as four bytes are left. Nineteen
// digits fit a u64; with a twentieth it is none. What is answered is taken apart and put together again: handed on as it is, every answer would be
// kept in memory, also where `stopped` is not called.
fn read<const LONG: bool>(line: &[u8], at: usize) -> Option<(u64, usize)>
    ensures { result ≡ number_at line.now at }
{
    let end = digits_end(line.len(), at);
    let mut value: u64 = 0;
    let mut next = at;
    while LONG && 4 <= end - next {
        let Some(four) = four_digits(line, next) else {
            break;
        };
        value = value * 10000 + four;
        next += 4;
    }
    let read = read_on(line, at, value, next, end);
    let (value, next) = if read.ends {
        ended_inside(line, at, read.value, read.next)?
    } else {
        stopped(line, at, read.value, read.next)?
    };
    Some((value, next))
}

// The numeral at a place, with the place after it.
pub fn read_number(line: &[u8], at: usize) -> Option<(u64, usize)>
    ensures { result ≡ number_at line.now at }
{
    read::<false>(line, at)
}

// The signed numeral at a place, with the place after it. -0 is no numeral.
pub fn read_signed(line: &[u8], at: usize) -> Option<(Signed, usize)>
    ensures { result ≡ signed_at line.now at }
{
    let minus = word_at(line, at, b"-");
    let negative = minus.is_some();
    let (magnitude, next) = read::<true>(line, minus.unwrap_or(at))?;
    if negative && magnitude == 0 {
        return None;
    }
    let signed = Signed {
        negative,
        magnitude,
    };
    Some((signed, next))
}
