// The line of each form, written to a lent buffer of any length: document 02, order 1. Numbers have 64 bits, so that one that no command can
// hold is refused, and not cut short.
#![tactic(auto)]

use crate::layouts::{write_bare, write_edged, write_numbered, write_timed};
use calendar::Date;
use command::limits::{board_within, flight_within, reply_within, start_within, ticks_within};
use moment::Interval;
use refusal::Refusal;
use rules::Rule;
use window_lines::{put_window, window_refusal};
use writing::LEAST_OUTPUT;

mod layouts;

ghost use Rattle.std.specs.Prelude.{◌≡◌};
ghost use Rattle.refusal.specs.Refusal.{number};
ghost use Rattle.command.specs.Forms.{start, pass, request, reply, drop, read, waiting, window, flight, rule};
ghost use Rattle.command.specs.Spelling.{plain_part};
ghost use Rattle.form_lines.specs.Written.{write_result, write_result_of, written_form, refused, written_by_rule};

// Refuses with the number, or with 10 before it, and touches no byte.
#[tactic(auto, using(crate::proofs::WrittenLaws::refused_short, crate::proofs::WrittenLaws::refused_long))]
pub fn refuse(out: &[u8], number: u8) -> u8
    ensures { write_result result 0 out.now ≡ refused number out.now }
{
    if out.len() < LEAST_OUTPUT {
        return Refusal::NoRoom.number();
    }
    number
}

// The same of a cause, as the error of a call that writes a line.
pub fn refuse_with(out: &[u8], refusal: Refusal) -> Result<usize, Refusal>
    ensures { write_result_of result out.now ≡ refused (number refusal) out.now }
{
    if out.len() < LEAST_OUTPUT {
        return Err(Refusal::NoRoom);
    }
    Err(refusal)
}

// the rule of a start, between spaces
fn rule_word(r: Rule) -> &'static [u8]
    ensures { result.now ≡ plain_part (rule r) }
{
    match r {
        Rule::Im => b" im ",
        Rule::Mm => b" mm ",
    }
}

// `(start BOARD RULE CLAIM (LOWER UPPER))`
pub fn write_start(
    out: &mut [u8],
    board: u64,
    rule: Rule,
    claim: u64,
    edges: Interval,
) -> Result<usize, Refusal>
    ensures { write_result_of result out.new ≡ written_form (start board rule claim edges) out.old }
{
    let kept = start_within(board, claim, edges);
    write_edged(out, kept, b"(start ", board, rule_word(rule), claim, edges)
}

// A start whose rule is a number too: 0 for im, 1 for mm; any other is refused with 2.
pub fn write_start_with_rule_number(
    out: &mut [u8],
    board: u64,
    rule: u64,
    claim: u64,
    edges: Interval,
) -> Result<usize, Refusal>
    ensures { write_result_of result out.new ≡ written_by_rule rule (λ x. start board x claim edges) out.old }
{
    match Rule::try_from(rule) {
        Ok(rule) => write_start(out, board, rule, claim, edges),
        Err(refusal) => refuse_with(out, refusal),
    }
}

// `(pass TICKS)`
pub fn write_pass(out: &mut [u8], ticks: u64) -> Result<usize, Refusal>
    ensures { write_result_of result out.new ≡ written_form (pass ticks) out.old }
{
    write_numbered(out, ticks_within(ticks), b"(pass ", ticks)
}

// `(request PEER)`
pub fn write_request(out: &mut [u8], peer: u64) -> Result<usize, Refusal>
    ensures { write_result_of result out.new ≡ written_form (request peer) out.old }
{
    write_numbered(out, board_within(peer), b"(request ", peer)
}

// `(reply PEER TAG (TRAILING LEADING))`
pub fn write_reply(out: &mut [u8], peer: u64, tag: u64, edges: Interval) -> Result<usize, Refusal>
    ensures { write_result_of result out.new ≡ written_form (reply peer tag edges) out.old }
{
    write_edged(
        out,
        reply_within(peer, tag, edges),
        b"(reply ",
        peer,
        b" ",
        tag,
        edges,
    )
}

// `(drop PEER)`
pub fn write_drop(out: &mut [u8], peer: u64) -> Result<usize, Refusal>
    ensures { write_result_of result out.new ≡ written_form (drop peer) out.old }
{
    write_numbered(out, board_within(peer), b"(drop ", peer)
}

// `(read)`
pub fn write_read(out: &mut [u8]) -> Result<usize, Refusal>
    ensures { write_result_of result out.new ≡ written_form read out.old }
{
    write_bare(out, b"(read)")
}

// `(waiting)`
pub fn write_waiting(out: &mut [u8]) -> Result<usize, Refusal>
    ensures { write_result_of result out.new ≡ written_form waiting out.old }
{
    write_bare(out, b"(waiting)")
}

// `(window SLOT (START END))`. A window that isn't written leaves the buffer as it was: every test comes before the first byte.
pub fn write_window(out: &mut [u8], slot: u64, start: Date, end: Date) -> Result<usize, Refusal>
    ensures { write_result_of result out.new ≡ written_form (window slot start end) out.old }
{
    window_refusal(out.len() < LEAST_OUTPUT, slot, start, end)?;
    let length = put_window(out, slot, start, end);
    Ok(length)
}

// `(flight PEER (OUT BACK))`
pub fn write_flight(
    out: &mut [u8],
    peer: u64,
    out_time: u64,
    back_time: u64,
) -> Result<usize, Refusal>
    ensures { write_result_of result out.new ≡ written_form (flight peer out_time back_time) out.old }
{
    write_timed(
        out,
        flight_within(peer, out_time, back_time),
        b"(flight ",
        peer,
        out_time,
        back_time,
    )
}
