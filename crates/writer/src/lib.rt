// The writer of commands: document 02, order 1. A command by value and a lent buffer of any length in; the number and the length back.
#![tactic(auto)]

ghost use Rattle.std.specs.Prelude.{◌≡◌};
ghost use Rattle.form_lines.specs.Written.{write_result_of};
ghost use Rattle.writer.specs.Written.{written, written_reading};

use command::{Command, Reading};
use form_lines::{
    refuse_with, write_drop, write_flight, write_pass, write_read, write_reply, write_request,
    write_start, write_waiting, write_window,
};
use refusal::Refusal;

// Writes the line of a command. One with a number outside its limits, or a first edge above the second, is refused with 2; a window with a date
// that doesn't exist with 11, one whose end isn't later than its start with 12.
pub fn write_command(out: &mut [u8], command: Command) -> Result<usize, Refusal>
    ensures { write_result_of result out.new ≡ written command out.old }
{
    match command {
        Command::Start {
            board,
            rule,
            claim,
            edges,
        } => write_start(out, board as u64, rule, claim as u64, edges),
        Command::Pass { ticks } => write_pass(out, ticks as u64),
        Command::Request { peer } => write_request(out, peer as u64),
        Command::Reply { peer, tag, edges } => write_reply(out, peer as u64, tag as u64, edges),
        Command::Drop { peer } => write_drop(out, peer as u64),
        Command::Read => write_read(out),
        Command::Waiting => write_waiting(out),
        Command::Window { slot, start, end } => write_window(out, slot as u64, start, end),
        Command::Flight {
            peer,
            out: out_time,
            back,
        } => write_flight(out, peer as u64, out_time as u64, back as u64),
    }
}

// Writes back what a line was read as. Its own refusal comes after 10.
pub fn write_reading(out: &mut [u8], reading: Reading) -> Result<usize, Refusal>
    ensures { write_result_of result out.new ≡ written_reading reading out.old }
{
    match reading {
        Ok(command) => write_command(out, command),
        Err(refusal) => refuse_with(out, refusal),
    }
}
