// One call with a line: a keeper by value, a line of any bytes, and a lent output of any length.
#![tactic(auto)]

ghost use Rattle.std.specs.Prelude.{◌≡◌, true, ◌≤◌, length};
ghost use Rattle.keeper.specs.State.{counts_as_started};
ghost use Rattle.keeper.specs.declared.Answer.TheVariants.{Waiting, Refused};
ghost use Rattle.keeper.specs.declared.Keeper.{Keeper};
ghost use Rattle.writing.specs.Puts.{least_output};
ghost use Rattle.line.specs.Call.{answered, Wrote, Called};

use answer_writer::put_answer;
use answers::put_refusal;
use keeper::calls::apply_tested;
use keeper::number::number_of;
use keeper::{Answer, Keeper, Outcome};
use reader::read_command;
use refusal::Refusal;
use writing::LEAST_OUTPUT;

// The number returned, the keeper handed back, and the length written.
#[derive(Clone, Copy)]
pub struct Response {
    pub number: u8,
    pub keeper: Keeper,
    pub length: usize,
}

// What is answered to a line, and the keeper after it.
fn answer_to(keeper: Keeper, line: &[u8]) -> Outcome
    ensures { result ≡ answered keeper line.now }
{
    match read_command(line) {
        Ok(command) => apply_tested(keeper, command),
        Err(refusal) => Outcome {
            answer: Answer::Refused(refusal.number()),
            keeper,
        },
    }
}

// Writes the line of an answer and its LF at the front of the output, and gives the length written.
pub fn write_answer(out: &mut [u8], answer: Answer, keeper: Keeper) -> usize
    requires { (least_output ≤ length out.old) × (answer ≡ Waiting → counts_as_started keeper ≡ true) }
    ensures { Wrote answer keeper out.old out.new result }
{
    put_answer(out, 0, answer, keeper)
}

// The same for a line that is no command, which is refused whatever the keeper is.
pub fn write_refusal(out: &mut [u8], n: u8) -> usize
    requires { least_output ≤ length out.old }
    ensures { (k : Keeper) → Wrote (Refused n) k out.old out.new result }
{
    put_refusal(out, 0, n)
}

// The whole call, for who holds a keeper by value. The program and the library make its steps themselves, so that no response with a keeper in it
// is copied. Refusal 10 comes before anything else is looked at, and touches no byte.
pub fn call(keeper: Keeper, line: &[u8], out: &mut [u8]) -> Response
    ensures { Called keeper line.now out.old result.number result.keeper out.new result.length }
{
    if out.len() < LEAST_OUTPUT {
        return Response {
            number: Refusal::NoRoom.number(),
            keeper,
            length: 0,
        };
    }
    let outcome = answer_to(keeper, line);
    let next = outcome.keeper;
    let answer = outcome.answer;
    let length = write_answer(out, answer, next);
    Response {
        number: number_of(answer),
        keeper: next,
        length,
    }
}
