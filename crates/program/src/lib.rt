// Lines from a reader to a writer, through one keeper: the work of the program boardtime. `turn` has no input or output; `read` makes the one
// read of a turn; the loop here goes from turn to turn and writes.
#![tactic(auto)]

ghost use Rattle.program.specs.Served.{Served};

use crate::read::read_more;
use crate::turn::{Stream, answers, turn};
use keeper::Keeper;
use std::io::{Read, Write};

mod read;
mod turn;

// So many bytes are read at a time at most, and so many written.
const BUFFER: usize = 65536;

// How a run of the program ended.
#[derive(Clone, Copy)]
pub enum Ended {
    InputEnded,
    ReadingFailed,
    WritingFailed,
    TurnsUsedUp,
}

// Runs until the input ends, or can't be read, or the output can't be written. The answers are written before the program would wait for more
// input. A proved loop has to end, and nothing says that the input does: it counts up to a number that no run reaches.
fn run<R: Read, W: Write>(input: &mut R, output: &mut W) -> Ended
    ensures { Served result (R.remaining input.old) (R.remaining input.new) (W.contents output.old) (W.contents output.new) }
{
    let mut buffer = [0u8; BUFFER];
    let mut out = [0u8; BUFFER];
    let mut s = Stream {
        keeper: Keeper::fresh(),
        from: 0,
        end: 0,
        filled: 0,
        full: false,
    };
    for _ in 0..u64::MAX {
        let Ok(got) = read_more(s, &mut buffer, input) else {
            return Ended::ReadingFailed;
        };
        s = turn(s, got.count, &mut buffer, &mut out);
        if output.write_all(answers(s.filled, &out)).is_err() {
            return Ended::WritingFailed;
        }
        if got.last {
            return Ended::InputEnded;
        }
    }
    Ended::TurnsUsedUp
}

// The program has no exit status of its own to tell a failure by. Where the message can't be written either, there is no one left to tell.
fn tell<E: Write>(errors: &mut E, message: &[u8]) {
    let _ = errors.write_all(message);
}

// Serves the lines of the input, and tells of a failure.
pub fn serve<R: Read, W: Write, E: Write>(input: &mut R, output: &mut W, errors: &mut E) -> Ended
    ensures { Served result (R.remaining input.old) (R.remaining input.new) (W.contents output.old) (W.contents output.new) }
{
    let ended = run(input, output);
    match ended {
        Ended::ReadingFailed => tell(errors, b"boardtime: reading failed\n"),
        Ended::WritingFailed => tell(errors, b"boardtime: writing failed\n"),
        Ended::InputEnded | Ended::TurnsUsedUp => {}
    }
    ended
}
