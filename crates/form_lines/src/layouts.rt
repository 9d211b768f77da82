// Lines by their layout: two numbers and edges, a number and two times, one number, a word alone. Nothing is put before every test has passed.
ghost use Rattle.std.specs.Prelude.{◌≡◌, not, true, [], ◌∷◌, ◌≤◌, length};
ghost use Rattle.refusal.specs.Refusal.{number_of};
ghost use Rattle.writing.specs.Puts.{Puts};
ghost use Rattle.command.specs.Causes.{cause, first};
ghost use Rattle.form_lines.specs.Written.{write_result_of, writes};
ghost use Rattle.form_lines.specs.Lines.{edged_end, edged_line, timed_end, timed_line, numbered_line};

use digits::write::put_number;
use moment::Interval;
use refusal::Refusal;
use text::output::put_bytes;
use writing::{LEAST_OUTPUT, put_pair};

// 10 if the buffer is too short, then 2 if a limit is broken.
fn tested(short: bool, kept: bool) -> Result<(), Refusal>
    ensures { number_of result ≡ first (cause 10 short ∷ cause 2 (not kept) ∷ []) }
{
    if short {
        return Err(Refusal::NoRoom);
    }
    if !kept {
        return Err(Refusal::OutsideLimits);
    }
    Ok(())
}

// `N (LOWER UPPER))`, the end of a line with edges
fn put_end(out: &mut [u8], at: usize, n: u64, edges: Interval) -> usize
    ensures { Puts out.old at (edged_end n edges) out.new result × (length (edged_end n edges) ≤ 65) }
{
    let at = put_number(out, at, n);
    let at = put_bytes(out, at, b" ");
    let at = put_pair(out, at, edges.lower, edges.upper);
    put_bytes(out, at, b")")
}

// `WORD M BETWEEN N (LOWER UPPER))`, where the texts have the bracket and the spaces. It is a part of each of its callers, so that the texts' lengths
// are known where they are copied, and none is copied by a call of C's.
#[inline(always)]
pub(crate) fn write_edged(
    out: &mut [u8],
    kept: bool,
    word: &[u8],
    m: u64,
    between: &[u8],
    n: u64,
    edges: Interval,
) -> Result<usize, Refusal>
    requires word_len_bound { length word.now ≤ 16 }
    requires between_len_bound { length between.now ≤ 16 }
    ensures { write_result_of result out.new ≡ writes (cause 2 (not kept) ∷ []) (edged_line word.now m between.now n edges) out.old }
{
    tested(out.len() < LEAST_OUTPUT, kept)?;
    let at = put_bytes(out, 0, word);
    let at = put_number(out, at, m);
    let at = put_bytes(out, at, between);
    let length = put_end(out, at, n, edges);
    Ok(length)
}

// `N (FIRST SECOND))`, the end of a line with flight times
fn put_times(out: &mut [u8], at: usize, n: u64, first: u64, second: u64) -> usize
    ensures { Puts out.old at (timed_end n first second) out.new result × (length (timed_end n first second) ≤ 65) }
{
    let at = put_number(out, at, n);
    let at = put_bytes(out, at, b" (");
    let at = put_number(out, at, first);
    let at = put_bytes(out, at, b" ");
    let at = put_number(out, at, second);
    put_bytes(out, at, b"))")
}

// `WORD N (FIRST SECOND))`
pub(crate) fn write_timed(
    out: &mut [u8],
    kept: bool,
    word: &[u8],
    n: u64,
    first: u64,
    second: u64,
) -> Result<usize, Refusal>
    requires { length word.now ≤ 16 }
    ensures { write_result_of result out.new ≡ writes (cause 2 (not kept) ∷ []) (timed_line word.now n first second) out.old }
{
    tested(out.len() < LEAST_OUTPUT, kept)?;
    let at = put_bytes(out, 0, word);
    let length = put_times(out, at, n, first, second);
    Ok(length)
}

// `WORD N)`
pub(crate) fn write_numbered(
    out: &mut [u8],
    kept: bool,
    word: &[u8],
    n: u64,
) -> Result<usize, Refusal>
    requires { length word.now ≤ 16 }
    ensures { write_result_of result out.new ≡ writes (cause 2 (not kept) ∷ []) (numbered_line word.now n) out.old }
{
    tested(out.len() < LEAST_OUTPUT, kept)?;
    let at = put_bytes(out, 0, word);
    let at = put_number(out, at, n);
    let length = put_bytes(out, at, b")");
    Ok(length)
}

// a word alone, which has no limit to break
pub(crate) fn write_bare(out: &mut [u8], word: &[u8]) -> Result<usize, Refusal>
    requires { length word.now ≤ 16 }
    ensures { write_result_of result out.new ≡ writes (cause 2 (not true) ∷ []) word.now out.old }
{
    tested(out.len() < LEAST_OUTPUT, true)?;
    let length = put_bytes(out, 0, word);
    Ok(length)
}
