// What follows the word of each form, part by part: the first part that is not there is refusal 1, and the numbers' limits come after
// the whole shape.
ghost use Rattle.std.specs.Prelude.{◌≡◌};
ghost use Rattle.shapes.specs.Shapes.{shaped_from, start_shape, reply_shape, edged_shape, numbered_shape, bare_shape, window_shape, flight_shape};

use crate::parts::{end_at, last_number, last_pair, rule_at};
use crate::{Bare, Edged, Numbered};
use command::accept::{
    accept_drop, accept_flight, accept_pass, accept_reply, accept_request, accept_start,
    accept_window,
};
use command::{Command, Reading};
use numeral::read::read_number;
use refusal::Refusal;
use text::words::word_at;

#[tactic(auto, using(crate::proofs::PartLaws::pair_edges), unfolding(crate::specs::Shapes::shaped_from, crate::specs::Shapes::read_parts))]
fn start_form(line: &[u8], at: usize) -> Reading
    ensures { result ≡ shaped_from start_shape line.now at }
{
    let Some((board, at)) = read_number(line, at) else {
        return Err(Refusal::NoShape);
    };
    let Some((rule, at)) = rule_at(line, at) else {
        return Err(Refusal::NoShape);
    };
    let Some((claim, at)) = read_number(line, at) else {
        return Err(Refusal::NoShape);
    };
    let Some((lower, upper)) = last_pair(line, at) else {
        return Err(Refusal::NoShape);
    };
    accept_start(board, rule, claim, lower, upper)
}

#[tactic(auto, using(crate::proofs::PartLaws::pair_edges), unfolding(crate::specs::Shapes::shaped_from, crate::specs::Shapes::read_parts))]
fn reply_form(line: &[u8], at: usize) -> Reading
    ensures { result ≡ shaped_from reply_shape line.now at }
{
    let Some((peer, at)) = read_number(line, at) else {
        return Err(Refusal::NoShape);
    };
    let Some(at) = word_at(line, at, b" ") else {
        return Err(Refusal::NoShape);
    };
    let Some((tag, at)) = read_number(line, at) else {
        return Err(Refusal::NoShape);
    };
    let Some((trailing, leading)) = last_pair(line, at) else {
        return Err(Refusal::NoShape);
    };
    accept_reply(peer, tag, trailing, leading)
}

pub fn edged_form(line: &[u8], at: usize, word: Edged) -> Reading
    ensures { result ≡ shaped_from (edged_shape word) line.now at }
{
    match word {
        Edged::Start => start_form(line, at),
        Edged::Reply => reply_form(line, at),
    }
}

// The number is read before the word is asked for, so that one more form of one number is one more case here.
#[tactic(auto, unfolding(crate::specs::Shapes::shaped_from))]
pub fn numbered_form(line: &[u8], at: usize, word: Numbered) -> Reading
    ensures { result ≡ shaped_from (numbered_shape word) line.now at }
{
    let Some(number) = last_number(line, at) else {
        return Err(Refusal::NoShape);
    };
    match word {
        Numbered::Pass => accept_pass(number),
        Numbered::Request => accept_request(number),
        Numbered::Drop => accept_drop(number),
    }
}

// A word alone: no byte may follow.
#[tactic(auto, unfolding(crate::specs::Shapes::shaped_from, crate::specs::Shapes::read_parts, command::specs::Limits::limited))]
pub fn bare_form(line: &[u8], at: usize, word: Bare) -> Reading
    ensures { result ≡ shaped_from (bare_shape word) line.now at }
{
    let true = end_at(line, at) else {
        return Err(Refusal::NoShape);
    };
    Ok(match word {
        Bare::Read => Command::Read,
        Bare::Waiting => Command::Waiting,
    })
}

#[tactic(auto, using(crate::proofs::PartLaws::pair_dates), unfolding(crate::specs::Shapes::shaped_from, crate::specs::Shapes::read_parts))]
pub fn window_form(line: &[u8], at: usize) -> Reading
    ensures { result ≡ shaped_from window_shape line.now at }
{
    let Some((slot, at)) = read_number(line, at) else {
        return Err(Refusal::NoShape);
    };
    let Some((start, end)) = last_pair(line, at) else {
        return Err(Refusal::NoShape);
    };
    accept_window(slot, start, end)
}

#[tactic(auto, using(crate::proofs::PartLaws::pair_times), unfolding(crate::specs::Shapes::shaped_from, crate::specs::Shapes::read_parts))]
pub fn flight_form(line: &[u8], at: usize) -> Reading
    ensures { result ≡ shaped_from flight_shape line.now at }
{
    let Some((peer, at)) = read_number(line, at) else {
        return Err(Refusal::NoShape);
    };
    let Some((out, back)) = last_pair(line, at) else {
        return Err(Refusal::NoShape);
    };
    accept_flight(peer, out, back)
}
