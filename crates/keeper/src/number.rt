// The number that document 01 returns for an answer: 0 for an accepted command, else the refusal's.
ghost use Rattle.std.specs.Prelude.{◌≡◌};
ghost use Rattle.keeper.specs.Apply.{number_of};

use crate::Answer;

pub fn number_of(answer: Answer) -> u8
    ensures { result ≡ number_of answer }
{
    match answer {
        Answer::Refused(n) => n,
        _ => 0,
    }
}
