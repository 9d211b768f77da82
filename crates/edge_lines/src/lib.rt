// The line of each answer that ends in edges, and its LF: of a pass and of a reply.
#![tactic(auto)]

ghost use Rattle.std.specs.Prelude.{[], ◌++◌};
ghost use Rattle.writing.specs.Puts.{Puts};
ghost use Rattle.keeper.specs.declared.Answer.TheVariants.{At, Replied};
ghost use Rattle.keeper.specs.declared.Keeper.{Keeper};
ghost use Rattle.answers.specs.Answers.{edges_line, finding_word, line_of};
ghost use Rattle.answers.specs.Writing.{line_end, PutShort};

use digits::write::put_number;
use moment::Interval;
use rules::{Finding, Verdict};
use text::output::put_bytes;
use writing::put_pair;

// 'N (LOWER UPPER))' and LF: a line that ends in edges, without its word
fn put_edges(out: &mut [u8], at: usize, n: u64, edges: Interval) -> usize
    ensures { Puts out.old at (edges_line [] n edges ++ line_end) out.new result }
{
    let at = put_number(out, at, n);
    let at = put_bytes(out, at, b" ");
    let at = put_pair(out, at, edges.lower, edges.upper);
    put_bytes(out, at, b")\n")
}

// '(at TICKS (LOWER UPPER))' and LF
pub fn at_line(out: &mut [u8], at: usize, ticks: u64, edges: Interval) -> usize
    ensures { (k : Keeper) → PutShort out.old at (line_of (At ticks edges) k) out.new result }
{
    let at = put_bytes(out, at, b"(at ");
    put_edges(out, at, ticks, edges)
}

// the bracket, the word of a finding and a space: each word stands in a call of its own, as those of a window do in `answers`
fn put_finding(out: &mut [u8], at: usize, finding: Finding) -> usize
    ensures { Puts out.old at (finding_word finding) out.new result }
{
    match finding {
        Finding::Taken => put_bytes(out, at, b"(taken "),
        Finding::Kept => put_bytes(out, at, b"(kept "),
        Finding::Conflict => put_bytes(out, at, b"(conflict "),
    }
}

// '(taken PEER (LOWER UPPER))', or the word of another finding, and LF
pub fn replied_line(out: &mut [u8], at: usize, peer: u8, verdict: Verdict) -> usize
    ensures { (k : Keeper) → PutShort out.old at (line_of (Replied peer verdict) k) out.new result }
{
    let at = put_finding(out, at, verdict.finding);
    put_edges(out, at, peer as u64, verdict.edges)
}
