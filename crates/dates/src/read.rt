// Dates read: any digits in a date's shape.
ghost use Rattle.std.specs.Prelude.{◌≡◌};
ghost use Rattle.dates.specs.DateReading.{two_at, three_at, date_at};

use calendar::Date;
use text::words::word_at;

// The number of two digits at a place, with the place after them.
fn two_at(line: &[u8], at: usize) -> Option<(u8, usize)>
    ensures { result ≡ two_at line.now at }
{
    if line.len() < at || line.len() - at < 2 {
        return None;
    }
    let (tens, ones) = (line[at], line[at + 1]);
    if tens < b'0' || b'9' < tens || ones < b'0' || b'9' < ones {
        return None;
    }
    Some(((tens - b'0') * 10 + (ones - b'0'), at + 2))
}

// The numbers of three fields of two digits, a separator between them, with the place after them: 01-01-01 or 00:00:00.
fn three_at(line: &[u8], at: usize, separator: &[u8]) -> Option<((u8, u8, u8), usize)>
    ensures { result ≡ three_at line.now at separator.now }
{
    let (first, at) = two_at(line, at)?;
    let at = word_at(line, at, separator)?;
    let (second, at) = two_at(line, at)?;
    let at = word_at(line, at, separator)?;
    let (third, at) = two_at(line, at)?;
    Some(((first, second, third), at))
}

// The date at a place, with the place after it. The year is two digits and the first of three fields.
pub fn read_date(line: &[u8], at: usize) -> Option<(Date, usize)>
    ensures { result ≡ date_at line.now at }
{
    let (hundreds, at) = two_at(line, at)?;
    let ((year, month, day), at) = three_at(line, at, b"-")?;
    let at = word_at(line, at, b"T")?;
    let ((hour, minute, second), at) = three_at(line, at, b":")?;
    let date = Date {
        year: hundreds as u16 * 100 + year as u16,
        month,
        day,
        hour,
        minute,
        second,
    };
    Some((date, at))
}
