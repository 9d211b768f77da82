// The reader of command lines: document 01, 'Line forms', and document 02, orders 3, 4 and 7. It takes a line of any bytes and any length.
#![tactic(auto)]

use crate::walk::Walk;
use command::Reading;
use refusal::Refusal;

mod walk;
mod words;

ghost use Rattle.std.specs.Prelude.{◌≡◌};
ghost use Rattle.reader.specs.Reading.{parse, reading_of};
ghost use Rattle.shapes.specs.Shapes.{read_as};

// The longest line, without its LF.
pub const LONGEST_LINE: usize = 160;

// The line walked along: the word of its form, then what is left as that form's parts.
#[tactic(auto, using(crate::proofs::GrammarLaws::walked_word, crate::proofs::GrammarLaws::walked_none))]
fn read_shape(line: &[u8]) -> Reading
    ensures { result ≡ read_as (parse line.now) }
{
    let walk = Walk::begin(line);
    let (word, at) = walk.word().ok_or(Refusal::NoShape)?;
    walk.moved(at).rest(word)
}

// What a line of any bytes and any length is.
#[tactic(auto, unfolding(crate::specs::Reading::reading_of))]
pub fn read_command(line: &[u8]) -> Reading
    ensures { result ≡ reading_of line.now }
{
    if LONGEST_LINE < line.len() {
        return Err(Refusal::NoShape);
    }
    read_shape(line)
}
