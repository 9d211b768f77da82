// Dates from callers whose numbers have 64 bits, so that none is cut short on the way in: a number that is too wide for its field becomes the
// field's greatest, with which no date exists.
ghost use Rattle.std.specs.Prelude.{◌≡◌};
ghost use Rattle.calendar.specs.Conversion.{date_in, six_of, Narrows};

use crate::Date;

// The date of six numbers, the year first.
pub fn date_from(given: &[u64; 6]) -> Date
    ensures { Narrows (date_in given.now) result }
{
    let [year, month, day, hour, minute, second] = *given;
    Date {
        year: u16::try_from(year).unwrap_or(u16::MAX),
        month: u8::try_from(month).unwrap_or(u8::MAX),
        day: u8::try_from(day).unwrap_or(u8::MAX),
        hour: u8::try_from(hour).unwrap_or(u8::MAX),
        minute: u8::try_from(minute).unwrap_or(u8::MAX),
        second: u8::try_from(second).unwrap_or(u8::MAX),
    }
}

// Its six numbers, the year first.
impl From<Date> for [u64; 6] {
    ghost from_gives = { λ date numbers. numbers ≡ six_of date };

    fn from(date: Date) -> [u64; 6] {
        [
            date.year as u64,
            date.month as u64,
            date.day as u64,
            date.hour as u64,
            date.minute as u64,
            date.second as u64,
        ]
    }
}
