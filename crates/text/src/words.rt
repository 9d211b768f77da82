// Words of a form, compared with the bytes of a line.
ghost use Rattle.std.specs.Prelude.{◌≡◌};
ghost use Rattle.text.specs.Words.{word_at};

// The place after a word, if it stands at a place of the line. Past the end of the line stands the empty word alone.
pub fn word_at(line: &[u8], at: usize, word: &[u8]) -> Option<usize>
    ensures { result ≡ word_at line.now at word.now }
{
    let rest = line.get(at..).unwrap_or(&[]);
    if !rest.starts_with(word) {
        return None;
    }
    Some(at + word.len())
}
