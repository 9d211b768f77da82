// The parts that end a line, and the rule's word: what several forms share.
ghost use Rattle.std.specs.Prelude.{◌≡◌, List, ℕ, Option};
ghost use Rattle.numeral.specs.Reading.{number_at, signed_at};
ghost use Rattle.dates.specs.DateReading.{date_at};
ghost use Rattle.shapes.specs.Shapes.{rule_at, end_at, read_parts, last_number};
ghost use Rattle.shapes.specs.Parts.{last_pair, number_read};

use calendar::Date;
use dates::read::read_date;
use numeral::read::{Signed, read_number, read_signed};
use rules::Rule;
use text::words::word_at;

// ' im ' or ' mm ': the rule whose word stands at a place, with the place after it.
#[tactic(auto, unfolding(crate::specs::Shapes::rule_at))]
pub fn rule_at(line: &[u8], at: usize) -> Option<(Rule, usize)>
    ensures { result ≡ rule_at line.now at }
{
    if let Some(next) = word_at(line, at, b" im ") {
        return Some((Rule::Im, next));
    }
    let Some(next) = word_at(line, at, b" mm ") else {
        return None;
    };
    Some((Rule::Mm, next))
}

// 'no byte after its last bracket'
#[tactic(auto, unfolding(crate::specs::Shapes::end_at))]
pub fn end_at(line: &[u8], at: usize) -> bool
    ensures { result ≡ end_at line.now at }
{
    line.len() <= at
}

// What stands twice in the brackets that end a line.
pub trait Part: Copy {
    ghost part_at: { List ℕ → ℕ → Option (Self × ℕ) };

    // The part at a place, with the place after it.
    fn read(line: &[u8], at: usize) -> Option<(Self, usize)>
        ensures { result ≡ part_at line.now at };
}

impl Part for Signed {
    ghost part_at = { signed_at };

    fn read(line: &[u8], at: usize) -> Option<(Signed, usize)> {
        read_signed(line, at)
    }
}

impl Part for Date {
    ghost part_at = { date_at };

    fn read(line: &[u8], at: usize) -> Option<(Date, usize)> {
        read_date(line, at)
    }
}

impl Part for u64 {
    ghost part_at = { number_at };

    fn read(line: &[u8], at: usize) -> Option<(u64, usize)> {
        read_number(line, at)
    }
}

// ' (PART PART))' and no byte after it
#[tactic(auto, unfolding(crate::specs::Parts::last_pair))]
pub fn last_pair<P: Part>(line: &[u8], at: usize) -> Option<(P, P)>
    ensures { result ≡ last_pair P.part_at line.now at }
{
    let Some(at) = word_at(line, at, b" (") else {
        return None;
    };
    let Some((first, at)) = P::read(line, at) else {
        return None;
    };
    let Some(at) = word_at(line, at, b" ") else {
        return None;
    };
    let Some((second, at)) = P::read(line, at) else {
        return None;
    };
    let Some(at) = word_at(line, at, b"))") else {
        return None;
    };
    let true = end_at(line, at) else {
        return None;
    };
    Some((first, second))
}

// 'N)' and no byte after it
#[tactic(auto, unfolding(crate::specs::Shapes::read_parts))]
pub fn last_number(line: &[u8], at: usize) -> Option<u64>
    ensures { number_read result ≡ read_parts last_number line.now at }
{
    let Some((n, next)) = read_number(line, at) else {
        return None;
    };
    let Some(after) = word_at(line, next, b")") else {
        return None;
    };
    let true = end_at(line, after) else {
        return None;
    };
    Some(n)
}
