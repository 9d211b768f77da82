// Parts of a line, put one after the other. Each part asks for no room of its own: where the whole line has room, every part has. And what
// a call that writes a line returns.
#![tactic(auto)]

ghost use Rattle.std.specs.Prelude.{◌≡◌, ◌+◌, ◌*◌, ◌≤◌, length};
ghost use Rattle.writing.specs.Puts.{least_output, Puts, pair};

use digits::write::put_signed;
use text::output::put_bytes;

// The least output that a line is written to; a shorter one is refused.
pub const LEAST_OUTPUT: usize = 256;

// '(LOWER UPPER)', '(CENTRE ERROR)'
pub fn put_pair(out: &mut [u8], at: usize, first: i64, second: i64) -> usize
    ensures { Puts out.old at (pair first second) out.new result × (length (pair first second) ≤ 43) }
{
    let at = put_bytes(out, at, b"(");
    let at = put_signed(out, at, first);
    let at = put_bytes(out, at, b" ");
    let at = put_signed(out, at, second);
    put_bytes(out, at, b")")
}

// What a call returns that writes a line, where one number has to hold both: the number as its lowest byte, and the length above it.
pub fn returned(number: u8, length: usize) -> u32
    requires { length ≤ least_output }
    ensures { result ≡ number + 256 * length }
{
    (number as u32) + 256 * (length as u32)
}
