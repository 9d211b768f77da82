// Dates written.
ghost use Rattle.std.specs.Prelude.{◌+◌, ◌≤◌, ◌<◌, length};
ghost use Rattle.text.specs.Output.{Put};
ghost use Rattle.dates.specs.DateText.{fields_text, date_text, Fits};

use calendar::Date;
use digits::width::{put_four, put_two};
use text::output::put_bytes;

// The second and the third field of a day or of a time: '-01-01', ':00:00'.
fn put_fields(out: &mut [u8], at: usize, separator: u8, second: u8, third: u8) -> usize
    requires at_in_bounds { at + 6 ≤ length out.old }
    requires second_bound { second < 100 }
    requires third_bound { third < 100 }
    ensures { Put out.old at (fields_text separator second third) out.new result }
{
    let at = put_bytes(out, at, &[separator]);
    let at = put_two(out, at, second as u32);
    let at = put_bytes(out, at, &[separator]);
    put_two(out, at, third as u32)
}

// Puts a date at a place of the output, where it has room, and gives the place after it.
pub fn put_date(out: &mut [u8], at: usize, date: Date) -> usize
    requires at_in_bounds { at + 19 ≤ length out.old }
    requires fits { Fits date }
    ensures { Put out.old at (date_text date) out.new result }
{
    let at = put_four(out, at, date.year as u32);
    let at = put_fields(out, at, b'-', date.month, date.day);
    let at = put_bytes(out, at, b"T");
    let at = put_two(out, at, date.hour as u32);
    put_fields(out, at, b':', date.minute, date.second)
}
