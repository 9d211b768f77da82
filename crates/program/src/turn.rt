// One turn of the program, without input or output: what was read is answered as far as the output has room, and what is left of a line is
// held for the next turn.
ghost use Rattle.std.specs.Prelude.{◌≡◌, ◌+◌, ◌≤◌, length, take};
ghost use Rattle.writing.specs.Puts.{least_output};
ghost use Rattle.program.specs.Turning.{InOrder, Turned};

use keeper::Keeper;
use lines::hold;
use reader::LONGEST_LINE;
use serve::answer::answer_lines;

// So much is held of an unfinished line: one byte more than a command may have, by which a line that is too long is refused.
const HELD: usize = LONGEST_LINE + 1;

// The program between two turns. The bytes from `from` up to `end` of its buffer are not answered yet. The answers of the last turn fill the
// front of its output; `full` says that a whole line is left, which the output had no room for.
#[derive(Clone, Copy)]
pub struct Stream {
    pub keeper: Keeper,
    pub from: usize,
    pub end: usize,
    pub filled: usize,
    pub full: bool,
}

// Answers what was left and the `got` bytes that came behind it, as far as the output has room. What is left of a line that is not whole is
// moved to the front of the buffer; where a whole line is left, all stays in its place.
pub(crate) fn turn(s: Stream, got: usize, buffer: &mut [u8], out: &mut [u8]) -> Stream
    requires { InOrder s buffer.old × (s.end + got ≤ length buffer.old) × (least_output ≤ length out.old) }
    ensures { Turned s got buffer.old out.old result buffer.new out.new }
{
    let keeper = s.keeper;
    let from = s.from;
    let end = s.end + got;
    let l = answer_lines(keeper, &buffer[..end], from, out);
    let next = l.keeper;
    let rest = l.from;
    if l.full {
        return Stream {
            keeper: next,
            from: rest,
            end,
            filled: l.filled,
            full: true,
        };
    }
    let held = hold(buffer, rest, end, HELD);
    Stream {
        keeper: next,
        from: 0,
        end: held,
        filled: l.filled,
        full: false,
    }
}

// What a turn wrote.
pub(crate) fn answers(filled: usize, out: &[u8]) -> &[u8]
    requires { filled ≤ length out.now }
    ensures { result.now ≡ take filled out.now }
{
    &out[..filled]
}
