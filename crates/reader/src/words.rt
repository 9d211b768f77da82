// The word that a line begins with.
ghost use Rattle.std.specs.Prelude.{◌≡◌};
ghost use Rattle.reader.specs.Reading.{rare_shapes, last_shapes, word_of, word_from};

use shapes::{Bare, Edged, FormWord, Numbered};
use text::words::word_at;

// The form whose word stands at a place, with the place after it, the commonest first. A function looks for at most four words: the time of its
// check grows with their square.
#[tactic(auto, unfolding(crate::specs::Reading::word_from, crate::specs::Reading::word_of))]
pub fn form_word(line: &[u8], at: usize) -> Option<(FormWord, usize)>
    ensures { result ≡ word_from line.now at }
{
    if let Some(next) = word_at(line, at, b"(reply ") {
        return Some((FormWord::Edged(Edged::Reply), next));
    }
    if let Some(next) = word_at(line, at, b"(pass ") {
        return Some((FormWord::Numbered(Numbered::Pass), next));
    }
    if let Some(next) = word_at(line, at, b"(request ") {
        return Some((FormWord::Numbered(Numbered::Request), next));
    }
    rare_word(line, at)
}

// The same of the words that come less often.
#[tactic(auto, unfolding(crate::specs::Reading::word_of))]
fn rare_word(line: &[u8], at: usize) -> Option<(FormWord, usize)>
    ensures { result ≡ word_of rare_shapes line.now at }
{
    if let Some(next) = word_at(line, at, b"(read)") {
        return Some((FormWord::Bare(Bare::Read), next));
    }
    if let Some(next) = word_at(line, at, b"(drop ") {
        return Some((FormWord::Numbered(Numbered::Drop), next));
    }
    if let Some(next) = word_at(line, at, b"(waiting)") {
        return Some((FormWord::Bare(Bare::Waiting), next));
    }
    last_word(line, at)
}

// The same of the words that are looked for last: a window's, a flight's, and the start's, which comes once.
#[tactic(auto, unfolding(crate::specs::Reading::word_of))]
fn last_word(line: &[u8], at: usize) -> Option<(FormWord, usize)>
    ensures { result ≡ word_of last_shapes line.now at }
{
    if let Some(next) = word_at(line, at, b"(window ") {
        return Some((FormWord::Window, next));
    }
    if let Some(next) = word_at(line, at, b"(flight ") {
        return Some((FormWord::Flight, next));
    }
    let Some(next) = word_at(line, at, b"(start ") else {
        return None;
    };
    Some((FormWord::Edged(Edged::Start), next))
}
