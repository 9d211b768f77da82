// The words that begin a command line, and the parts that follow each: document 01, 'Line forms', and document 02, orders 3 and 7.
#![tactic(auto)]

use crate::forms::{bare_form, edged_form, flight_form, numbered_form, window_form};
use command::Reading;
use refusal::Refusal;

mod forms;
mod parts;

ghost use Rattle.std.specs.Prelude.{◌≡◌};
ghost use Rattle.shapes.specs.Shapes.{rest_of};

// The words of the forms that end with two edges.
#[derive(Clone, Copy)]
pub enum Edged {
    Start,
    Reply,
}

// The words of the forms of one number.
#[derive(Clone, Copy)]
pub enum Numbered {
    Pass,
    Request,
    Drop,
}

// The words of the forms that have no part.
#[derive(Clone, Copy)]
pub enum Bare {
    Read,
    Waiting,
}

// The form whose word it is, by what follows the word, or that it is no form's.
#[derive(Clone, Copy)]
pub enum FormWord {
    Edged(Edged),
    Numbered(Numbered),
    Bare(Bare),
    Window,
    Flight,
    Unknown,
}

// The line from a place on, as the parts of the form whose word came before.
#[tactic(auto, unfolding(crate::specs::Shapes::rest_of))]
pub fn parts_from(line: &[u8], at: usize, word: FormWord) -> Reading
    ensures { result ≡ rest_of word line.now at }
{
    match word {
        FormWord::Edged(form) => edged_form(line, at, form),
        FormWord::Numbered(form) => numbered_form(line, at, form),
        FormWord::Bare(form) => bare_form(line, at, form),
        FormWord::Window => window_form(line, at),
        FormWord::Flight => flight_form(line, at),
        FormWord::Unknown => Err(Refusal::NoShape),
    }
}
