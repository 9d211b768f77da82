// Marked lines in a buffer: where one ends, and where the next begins.
ghost use Rattle.std.specs.Prelude.{◌≡◌, ◌+◌, drop};
ghost use Rattle.runs.specs.Marks.{marked, line_size, mark_size, run_size};

use lines::line_end;

// A line that begins with it is marked. No command does.
const MARK: u8 = b'#';

// Whether the line that begins at a place is marked.
fn is_marked(bytes: &[u8], at: usize) -> bool
    ensures { result ≡ marked (drop at bytes.now) }
{
    bytes.get(at) == Some(&MARK)
}

// The place behind the LF of the line that begins at a place; behind its last byte if it has none.
fn next_line(bytes: &[u8], at: usize) -> usize
    ensures { result ≡ at + line_size (drop at bytes.now) }
{
    let end = line_end(bytes, at);
    if end < bytes.len() { end + 1 } else { end }
}

// How many bytes of a run are its mark: the first line, if it is marked.
pub(crate) fn mark_size(run: &[u8]) -> usize
    ensures { result ≡ mark_size run.now }
{
    if is_marked(run, 0) {
        next_line(run, 0)
    } else {
        0
    }
}

// Where a run ends that begins at a place, with or without a mark: at the next mark, or at the end of the bytes.
pub(crate) fn next_mark(bytes: &[u8], at: usize) -> usize
    ensures { result ≡ at + run_size (drop at bytes.now) }
{
    let mut next = next_line(bytes, at);
    while next < bytes.len() && !is_marked(bytes, next) {
        next = next_line(bytes, next);
    }
    next
}
