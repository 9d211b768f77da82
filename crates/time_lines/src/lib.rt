// The line of a time, and its LF.
#![tactic(auto)]

ghost use Rattle.std.specs.Prelude.{◌++◌};
ghost use Rattle.text.specs.Words.{bytes};
ghost use Rattle.numeral.specs.Digits.{digits};
ghost use Rattle.writing.specs.Puts.{Puts};
ghost use Rattle.keeper.specs.declared.Answer.TheVariants.{Time};
ghost use Rattle.keeper.specs.declared.Keeper.{Keeper};
ghost use Rattle.answers.specs.Answers.{line_of};
ghost use Rattle.answers.specs.Writing.{PutShort};

use digits::write::put_number;
use moment::Interval;
use text::output::put_bytes;
use writing::put_pair;

// ' CONFLICTS WAITING)' and LF: the end of the time line, behind its last pair
fn put_counts(out: &mut [u8], at: usize, conflicts: u32, waiting: u32) -> usize
    ensures { Puts out.old at (bytes " " ++ digits conflicts ++ bytes " " ++ digits waiting ++ bytes ")\n") out.new result }
{
    let at = put_bytes(out, at, b" ");
    let at = put_number(out, at, conflicts as u64);
    let at = put_bytes(out, at, b" ");
    let at = put_number(out, at, waiting as u64);
    put_bytes(out, at, b")\n")
}

// '(time (LOWER UPPER) (CENTRE ERROR) CONFLICTS WAITING)' and LF
pub fn time_line(
    out: &mut [u8],
    at: usize,
    edges: Interval,
    centre: i64,
    error: i64,
    conflicts: u32,
    waiting: u32,
) -> usize
    ensures { (k : Keeper) → PutShort out.old at (line_of (Time edges centre error conflicts waiting) k) out.new result }
{
    let at = put_bytes(out, at, b"(time ");
    let at = put_pair(out, at, edges.lower, edges.upper);
    let at = put_bytes(out, at, b" ");
    let at = put_pair(out, at, centre, error);
    put_counts(out, at, conflicts, waiting)
}
