// Dates of the Gregorian calendar, years 1900 through 2099, and moments: document 02, order 3.
#![tactic(auto)]

pub mod convert;
mod months;
pub mod wide;
mod years;

// A date and its time of day. Whether there is such a date is asked of it where it is used.
#[derive(Clone, Copy, Debug, PartialEq, Eq)]
pub struct Date {
    pub year: u16,
    pub month: u8,
    pub day: u8,
    pub hour: u8,
    pub minute: u8,
    pub second: u8,
}
