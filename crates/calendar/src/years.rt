// Years: which are leap, and the days of those before.
ghost use Rattle.std.specs.Prelude.{◌≡◌, ◌+◌, ◌<◌, ◌≤◌};
ghost use Rattle.calendar.specs.Calendar.{leap, days_of_years};

pub(crate) const FIRST_YEAR: u32 = 1900;

#[tactic(auto, unfolding(crate::specs::Calendar::leap))]
pub(crate) fn is_leap(year: u32) -> bool
    ensures { result ≡ leap year }
{
    year % 4 == 0 && year % 100 != 0 || year % 400 == 0
}

// The days of the n years from 1900 on. Of the years that 4 divides, from 1900 through 2099, only 1900 is not leap.
#[tactic(auto, using(crate::proofs::YearLaws::years_closed))]
pub(crate) fn days_of_years(n: u32) -> u32
    requires { n ≤ 200 }
    ensures { result ≡ days_of_years n }
{
    if n == 0 {
        return 0;
    }
    365 * n + (n - 1) / 4
}

// The years from 1900 to the one in which a day lies, which is so many days after 1900-01-01. No year has more than 366 days, so a 366th of the
// days is not too much, and it is too little by one year at most.
pub(crate) fn years_before(day: u32) -> u32
    requires { day < days_of_years 200 }
    ensures { (result < 200) × (days_of_years result ≤ day) × (day < days_of_years (result + 1)) }
{
    let years = day / 366;
    if days_of_years(years + 1) <= day {
        years + 1
    } else {
        years
    }
}
