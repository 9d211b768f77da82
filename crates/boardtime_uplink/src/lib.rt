// Commands written back, for who sends lines from C or Rust: a call for each form, and one that writes the plain spelling of a line. Numbers have
// 64 bits, so that none is cut short on the way in. C can't pass an enum, so a rule is a number: 0 for im, 1 for mm, as in an image. It is an
// archive of its own: in that of a board the reader would be called in two places, and each line would cost the board more.
#![tactic(auto)]

ghost use Rattle.std.specs.Prelude.{◌≡◌, ◌+◌, ◌*◌, ◌≤◌};
ghost use Rattle.refusal.specs.Refusal.{number_of};
ghost use Rattle.moment.specs.Intervals.{interval};
ghost use Rattle.calendar.specs.Conversion.{date_in};
ghost use Rattle.command.specs.Forms.{start, pass, request, reply, drop, read, waiting, window, flight};
ghost use Rattle.reader.specs.Reading.{reading_of};
ghost use Rattle.writing.specs.Puts.{least_output};
ghost use Rattle.form_lines.specs.Written.{length_of, written_form, written_by_rule};
ghost use Rattle.writer.specs.Written.{written_reading};
ghost use Rattle.boardtime_uplink.specs.Commands.{Returns};

use calendar::wide::date_from;
use form_lines::{
    write_drop, write_flight, write_pass, write_read, write_reply, write_request,
    write_start_with_rule_number, write_waiting, write_window,
};
use moment::Interval;
use reader::read_command;
use refusal::Refusal;
use writer::write_reading;
use writing::returned;

// The number of a refusal, or 0 and the length, as one number.
fn returned_of(written: Result<usize, Refusal>) -> u32
    requires { length_of written ≤ least_output }
    ensures { result ≡ number_of written + 256 * length_of written }
{
    match written {
        Ok(length) => returned(0, length),
        Err(refusal) => returned(refusal.number(), 0),
    }
}

#[unsafe(no_mangle)]
pub extern "C" fn boardtime_write_start(
    out: &mut [u8],
    board: u64,
    rule: u64,
    claim: u64,
    lower: i64,
    upper: i64,
) -> u32
    ensures { Returns (written_by_rule rule (λ x. start board x claim (interval lower upper)) out.old) result out.new }
{
    let edges = Interval { lower, upper };
    returned_of(write_start_with_rule_number(out, board, rule, claim, edges))
}

#[unsafe(no_mangle)]
pub extern "C" fn boardtime_write_pass(out: &mut [u8], ticks: u64) -> u32
    ensures { Returns (written_form (pass ticks) out.old) result out.new }
{
    returned_of(write_pass(out, ticks))
}

#[unsafe(no_mangle)]
pub extern "C" fn boardtime_write_request(out: &mut [u8], peer: u64) -> u32
    ensures { Returns (written_form (request peer) out.old) result out.new }
{
    returned_of(write_request(out, peer))
}

#[unsafe(no_mangle)]
pub extern "C" fn boardtime_write_reply(
    out: &mut [u8],
    peer: u64,
    tag: u64,
    trailing: i64,
    leading: i64,
) -> u32
    ensures { Returns (written_form (reply peer tag (interval trailing leading)) out.old) result out.new }
{
    let edges = Interval {
        lower: trailing,
        upper: leading,
    };
    returned_of(write_reply(out, peer, tag, edges))
}

#[unsafe(no_mangle)]
pub extern "C" fn boardtime_write_drop(out: &mut [u8], peer: u64) -> u32
    ensures { Returns (written_form (drop peer) out.old) result out.new }
{
    returned_of(write_drop(out, peer))
}

#[unsafe(no_mangle)]
pub extern "C" fn boardtime_write_read(out: &mut [u8]) -> u32
    ensures { Returns (written_form read out.old) result out.new }
{
    returned_of(write_read(out))
}

#[unsafe(no_mangle)]
pub extern "C" fn boardtime_write_waiting(out: &mut [u8]) -> u32
    ensures { Returns (written_form waiting out.old) result out.new }
{
    returned_of(write_waiting(out))
}

// A date is six numbers: year, month, day, hour, minute, second.
#[unsafe(no_mangle)]
pub extern "C" fn boardtime_write_window(
    out: &mut [u8],
    slot: u64,
    start: &[u64; 6],
    end: &[u64; 6],
) -> u32
    ensures { Returns (written_form (window slot (date_in start.now) (date_in end.now)) out.old) result out.new }
{
    let start_date = date_from(start);
    let end_date = date_from(end);
    returned_of(write_window(out, slot, start_date, end_date))
}

#[unsafe(no_mangle)]
pub extern "C" fn boardtime_write_flight(
    out: &mut [u8],
    peer: u64,
    out_time: u64,
    back_time: u64,
) -> u32
    ensures { Returns (written_form (flight peer out_time back_time) out.old) result out.new }
{
    returned_of(write_flight(out, peer, out_time, back_time))
}

// Writes the plain spelling of the command that a line is read as. A buffer that is too short is refused before the line's own refusals.
#[unsafe(no_mangle)]
pub extern "C" fn boardtime_plain(line: &[u8], out: &mut [u8]) -> u32
    ensures { Returns (written_reading (reading_of line.now) out.old) result out.new }
{
    returned_of(write_reading(out, read_command(line)))
}
