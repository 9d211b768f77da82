// How a date is written: 2000-01-01T00:00:00, every field at full width. Whether there is such a date, `calendar` tells.
#![tactic(auto)]

pub mod read;
pub mod write;
