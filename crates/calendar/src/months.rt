// Months: how long they are, and the days of those before.
ghost use Rattle.std.specs.Prelude.{◌≡◌, ◌+◌, ◌<◌, ◌≤◌};
ghost use Rattle.calendar.specs.Calendar.{year_length, month_length, days_of_months};

use crate::years::is_leap;

// Only February's length depends on the year.
#[tactic(auto, using(crate::proofs::MonthLaws::month_rules))]
pub(crate) fn month_length(year: u32, month: u32) -> u32
    requires le_month { 1 ≤ month }
    requires month_bound { month ≤ 12 }
    ensures { result ≡ month_length year month }
{
    match month {
        4 | 6 | 9 | 11 => 30,
        2 => { if is_leap(year) { 29 } else { 28 } }
        _ => 31,
    }
}

// The days of the first n months of the year: by 367 twelfths of a day a month, less what February lacks.
#[tactic(auto, using(crate::proofs::MonthLaws::months_rules))]
pub(crate) fn days_of_months(year: u32, n: u32) -> u32
    requires { n ≤ 12 }
    ensures { result ≡ days_of_months year n }
{
    let days = (367 * n + 5) / 12;
    if n < 2 {
        return days;
    }
    if is_leap(year) { days - 1 } else { days - 2 }
}

// The months of the year before the one in which a day lies, which is so many days after the year's first. No month has more than 31 days, so a
// 31st of the days is not too much, and it is too little by one month at most.
pub(crate) fn months_before(year: u32, day: u32) -> u32
    requires { day < year_length year }
    ensures { (result < 12) × (days_of_months year result ≤ day) × (day < days_of_months year (result + 1)) }
{
    let months = day / 31;
    if days_of_months(year, months + 1) <= day {
        months + 1
    } else {
        months
    }
}
