// Dates and moments for firmware and tools in C and Rust: the two calls of document 02, order 3, that write no line. A date is six numbers, year,
// month, day, hour, minute and second, each of 64 bits, so that none is cut short on the way in: a number too large for any date is refused,
// whatever its lower bits are. It is an archive of its own: a program that converts none links nothing of it.
#![tactic(auto)]

ghost use Rattle.boardtime_dates.specs.Calls.{MomentCall, DateCall};

use calendar::convert::{date_of, moment_of};
use calendar::wide::date_from;

// Stores the moment at which a date's second begins, and returns 0. For a date that doesn't exist, stores 0 and returns 11.
#[unsafe(no_mangle)]
pub extern "C" fn boardtime_moment_of(date: &[u64; 6], moment: &mut i64) -> u8
    ensures { MomentCall date.now result moment.new }
{
    match moment_of(date_from(date)) {
        Ok(begins) => {
            *moment = begins;
            0
        }
        Err(refusal) => {
            *moment = 0;
            refusal.number()
        }
    }
}

// Stores the six numbers of the date in whose second a moment falls, and returns 0. For a moment outside the years 1900 through 2099, stores six
// zeros and returns 11.
#[unsafe(no_mangle)]
pub extern "C" fn boardtime_date_of(moment: i64, date: &mut [u64; 6]) -> u8
    ensures { DateCall moment result date.new }
{
    match date_of(moment) {
        Ok(found) => {
            *date = found.into();
            0
        }
        Err(refusal) => {
            *date = [0; 6];
            refusal.number()
        }
    }
}
