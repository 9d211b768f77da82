// What comes behind the bytes that are held: a read, and the end of the input.
ghost use Rattle.std.specs.Prelude.{◌≡◌, false, ◌++◌, ◌+◌, ◌≤◌, ◌<◌, length, take};
ghost use Rattle.reader.specs.Reading.{longest_line};
ghost use Rattle.program.specs.Turning.{InOrder};
ghost use Rattle.program.specs.Reading.{LineEnded, values, Brought, Read, Came};

use crate::turn::Stream;
use lines::LF;
use std::io;

// How many bytes came, and whether they are the last.
#[derive(Clone, Copy)]
pub struct Got {
    pub count: usize,
    pub last: bool,
}

// The last line counts without its LF if it is not empty: an LF is put behind it.
fn end_line(buffer: &mut [u8], held: usize) -> usize
    requires { held < length buffer.old }
    ensures { LineEnded buffer.old held buffer.new result }
{
    if held == 0 {
        return 0;
    }
    buffer[held] = LF;
    1
}

// What a read brought that returned `moved`: bytes, the end of the input, or a failure.
fn brought(moved: io::Result<usize>, buffer: &mut [u8], held: usize) -> io::Result<Got>
    requires { held < length buffer.old }
    ensures { Brought moved buffer.old held (values result) buffer.new }
{
    match moved? {
        0 => Ok(Got {
            count: end_line(buffer, held),
            last: true,
        }),
        count => Ok(Got {
            count: count.min(buffer.len() - held),
            last: false,
        }),
    }
}

// Reads once behind what is held, unless a whole line is left that had no room. A read that a signal interrupts counts as one that failed.
pub(crate) fn read_more<R: io::Read>(s: Stream, buffer: &mut [u8], input: &mut R) -> io::Result<Got>
    requires { InOrder s buffer.old × (longest_line + 1 < length buffer.old) }
    ensures read { Read s buffer.old (values result) buffer.new }
    ensures came { Came (R.remaining input.old) (R.remaining input.new) s (values result) buffer.new }
    ensures some { s.full ≡ false → (values result).last ≡ false → 0 < (values result).count }
{
    if s.full {
        return Ok(Got {
            count: 0,
            last: false,
        });
    }
    let held = s.end;
    let moved = input.read(&mut buffer[held..]);
    brought(moved, buffer, held)
}
