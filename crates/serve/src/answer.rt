// The answers to the lines of a buffer, without input or output.
ghost use Rattle.std.specs.Prelude.{drop};
ghost use Rattle.serve.specs.Serving.{LinesAnswered};

use crate::put_back::put_back;
use keeper::calls::apply_command;
use keeper::number::number_of;
use keeper::tested::Tested;
use keeper::{Answer, Keeper};
use line::write_answer;
use lines::line_end;
use reader::read_command;
use writing::LEAST_OUTPUT;

// The keeper after some lines, the place behind the last LF that was answered, how much of the output the answers fill, and whether a
// whole line is left that the output had no room for.
#[derive(Clone, Copy)]
pub struct Lines {
    pub keeper: Keeper,
    pub from: usize,
    pub filled: usize,
    pub full: bool,
}

// Answers every whole line from a place on, while the output has room for one more answer. The keeper is tested once: after an accepted line
// it counts as started, and a refused line leaves it as it was. It is put back only after a command, and each function on the way of a line is
// called in one place, so that the compiler makes it a part of the loop.
pub fn answer_lines(keeper: Keeper, bytes: &[u8], from: usize, out: &mut [u8]) -> Lines
    ensures { LinesAnswered keeper (drop from bytes.now) out.old result.keeper (drop result.from bytes.now) result.filled result.full out.new }
{
    let mut now = keeper;
    let mut started = keeper.counts_as_started();
    let mut next = from;
    let mut filled: usize = 0;
    let mut at = line_end(bytes, next);
    while at < bytes.len() {
        if out.len() - filled < LEAST_OUTPUT {
            break;
        }
        let answer = match read_command(&bytes[next..at]) {
            Ok(command) => {
                let keeper = now;
                let outcome = apply_command(Tested { keeper, started }, command);
                now = put_back(now, outcome.answer, outcome.keeper);
                outcome.answer
            }
            Err(refusal) => Answer::Refused(refusal.number()),
        };
        if number_of(answer) == 0 {
            started = true;
        }
        let length = write_answer(&mut out[filled..], answer, now);
        filled += length;
        next = at + 1;
        at = line_end(bytes, next);
    }
    Lines {
        keeper: now,
        from: next,
        filled,
        full: at < bytes.len(),
    }
}
