// The walk along a line: a struct that refers to the line, with the place that it has come to. What reads bytes takes the struct apart
// and leaves the work to a function on a slice and a place.
ghost use Rattle.std.specs.Prelude.{◌≡◌};
ghost use Rattle.reader.specs.Reading.{word_from};
ghost use Rattle.shapes.specs.Shapes.{rest_of};

use crate::words::form_word;
use command::Reading;
use shapes::{FormWord, parts_from};

#[derive(Clone, Copy)]
pub struct Walk<'a> {
    pub line: &'a [u8],
    pub at: usize,
}

impl<'a> Walk<'a> {
    // At the line's first byte.
    pub fn begin(line: &'a [u8]) -> Walk<'a>
        ensures { (result.line ≡ line.entry) × (result.at ≡ 0) }
    {
        Walk { line, at: 0 }
    }

    // The word of a form that stands at the walk's place, with the place after it.
    pub fn word(self) -> Option<(FormWord, usize)>
        ensures { result ≡ word_from self.entry.line.now self.entry.at }
    {
        form_word(self.line, self.at)
    }

    // The walk gone on to a place of its line.
    pub fn moved(self, at: usize) -> Walk<'a>
        ensures { (result.line ≡ self.entry.line) × (result.at ≡ at) }
    {
        Walk { at, ..self }
    }

    // What is left of the line, read as the parts that follow a form's word.
    pub fn rest(self, word: FormWord) -> Reading
        ensures { result ≡ rest_of word self.entry.line.now self.entry.at }
    {
        parts_from(self.line, self.at, word)
    }
}
