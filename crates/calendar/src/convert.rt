// Dates to moments and moments to dates. Neither writes a line; each refuses with 11 alone.
ghost use Rattle.std.specs.Prelude.{◌≡◌, true, pos, ◌<◌, ◌*◌};
ghost use Rattle.calendar.specs.Calendar.{day_exists, time_exists, exists, days_of_years, second_number};
ghost use Rattle.calendar.specs.Conversion.{moment_result, floor_second, IsDateOf};

use crate::Date;
use crate::months::{days_of_months, month_length, months_before};
use crate::years::{FIRST_YEAR, days_of_years, years_before};
use refusal::Refusal;

const LAST_YEAR: u32 = 2099;

const SECOND_NANOSECONDS: i64 = 1000000000;

const DAY_SECONDS: u64 = 86400;

// The seconds from 1900-01-01T00:00:00 to moment 0.
const SECONDS_TO_2000: i64 = 3155673600;

// The first moment of 1900 and the last of 2099.
const FIRST_MOMENT: i64 = -3155673600000000000;

const LAST_MOMENT: i64 = 3155759999999999999;

// Whether the year is one of the two hundred, and has the month, and the month has the day.
#[tactic(auto, unfolding(crate::specs::Calendar::day_exists))]
fn day_exists(year: u32, month: u32, day: u32) -> bool
    ensures { result ≡ day_exists year month day }
{
    (FIRST_YEAR..=LAST_YEAR).contains(&year)
        && (1..=12).contains(&month)
        && (1..=month_length(year, month)).contains(&day)
}

// There is no leap second: a minute ends with its second 59.
#[tactic(auto, unfolding(crate::specs::Calendar::time_exists))]
fn time_exists(hour: u8, minute: u8, second: u8) -> bool
    ensures { result ≡ time_exists hour minute second }
{
    hour < 24 && minute < 60 && second < 60
}

#[tactic(auto, unfolding(crate::specs::Calendar::exists))]
pub fn date_exists(date: Date) -> bool
    ensures { result ≡ exists date }
{
    day_exists(date.year as u32, date.month as u32, date.day as u32)
        && time_exists(date.hour, date.minute, date.second)
}

// The seconds from 1900-01-01T00:00:00 to a date.
#[tactic(auto, using(crate::proofs::DateLaws::second_steps), unfolding(crate::specs::Calendar::second_number, crate::specs::Calendar::day_number))]
fn second_number(date: Date) -> u64
    requires { exists date ≡ true }
    ensures { result ≡ second_number date }
{
    let year = date.year as u32;
    let days = days_of_years(year - FIRST_YEAR)
        + days_of_months(year, (date.month as u32) - 1)
        + ((date.day as u32) - 1);
    (days as u64) * DAY_SECONDS
        + (date.hour as u64) * 3600
        + (date.minute as u64) * 60
        + (date.second as u64)
}

// The moment at which a date's second begins.
#[tactic(auto, using(crate::proofs::MomentLaws::moment_steps), unfolding(crate::specs::Conversion::moment_result))]
pub fn moment_of(date: Date) -> Result<i64, Refusal>
    ensures { result ≡ moment_result date }
{
    if !date_exists(date) {
        return Err(Refusal::NoDate);
    }
    let seconds = second_number(date) as i64;
    Ok((seconds - SECONDS_TO_2000) * SECOND_NANOSECONDS)
}

// The second in which a moment falls, counted from moment 0: the one that began at or before it.
#[tactic(auto, unfolding(crate::specs::Conversion::floor_second))]
fn second_of(moment: i64) -> i64
    ensures { result ≡ floor_second moment }
{
    moment.div_euclid(SECOND_NANOSECONDS)
}

// The date that is so many seconds after 1900-01-01T00:00:00.
#[tactic(auto, using(crate::proofs::DateLaws::date_steps))]
fn date_at(second: u64) -> Date
    requires { second < days_of_years 200 * 86400 }
    ensures { (exists result ≡ true) × (second_number result ≡ second) }
{
    let days = (second / DAY_SECONDS) as u32;
    let years = years_before(days);
    let year = FIRST_YEAR + years;
    let day = days - days_of_years(years);
    let months = months_before(year, day);
    let rest = (second % DAY_SECONDS) as u32;
    Date {
        year: year as u16,
        month: (months + 1) as u8,
        day: (day - days_of_months(year, months) + 1) as u8,
        hour: (rest / 3600) as u8,
        minute: (rest / 60 % 60) as u8,
        second: (rest % 60) as u8,
    }
}

// The date in whose second a moment falls.
#[tactic(auto, using(crate::proofs::MomentLaws::date_steps))]
pub fn date_of(moment: i64) -> Result<Date, Refusal>
    ensures { IsDateOf moment result }
{
    if !(FIRST_MOMENT..=LAST_MOMENT).contains(&moment) {
        return Err(Refusal::NoDate);
    }
    let second = (second_of(moment) + SECONDS_TO_2000) as u64;
    Ok(date_at(second))
}
