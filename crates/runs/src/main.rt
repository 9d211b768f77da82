// boardtime's answers to the stored runs that need nothing but their lines. A marked line names a run, is written as it is, and begins it with
// a fresh keeper; lines before the first mark have a fresh keeper too.
#![tactic(auto)]

use crate::marks::{mark_size, next_mark};
use keeper::Keeper;
use serve::answer::{Lines, answer_lines};
use std::io::{Read, Write};

mod marks;

ghost use Rattle.std.specs.Prelude.{◌≤◌, length, drop};
ghost use Rattle.keeper.specs.State.{fresh};
ghost use Rattle.serve.specs.Serving.{LinesAnswered};
ghost use Rattle.runs.specs.Marks.{mark_size};

// The input is read into so many bytes, and has to be shorter; as many hold the answers to a run.
const BUFFER: usize = 65536;

// Why a program stops before it has answered every line.
#[derive(Clone, Copy)]
enum Stopped {
    InputTooLong,
    LineLeft,
}

impl Stopped {
    fn message(self) -> &'static [u8] {
        match self {
            Stopped::InputTooLong => b"runs: the input is too long\n",
            Stopped::LineLeft => b"runs: a line has no LF, or no room for its answer\n",
        }
    }
}

// Where a message can't be written either, there is no one left to tell.
fn tell<E: Write>(errors: &mut E, message: &[u8]) {
    let _ = errors.write_all(message);
}

// Reads until the buffer is full, the input ends or a read fails, and returns how many bytes it put at the front of the buffer.
fn read_full<R: Read>(input: &mut R, buffer: &mut [u8]) -> usize
    ensures { result ≤ length buffer.new }
{
    let size = buffer.len();
    let mut rest = buffer;
    while !rest.is_empty()
        && let Ok(moved @ 1..) = input.read(rest)
    {
        rest = &mut rest[moved..];
    }
    size - rest.len()
}

// Answers the lines of a run, which stand behind its mark, as a program does that has just begun.
fn answer_run(run: &[u8], out: &mut [u8]) -> Lines
    ensures { LinesAnswered fresh (drop (mark_size run.now) run.now) out.old result.keeper (drop result.from run.now) result.filled result.full out.new }
{
    answer_lines(Keeper::fresh(), run, mark_size(run), out)
}

// Writes a run's mark and its answers, and fails where a line was not answered. A write that fails is seen where the output is compared.
fn write_run<W: Write>(output: &mut W, run: &[u8], out: &mut [u8]) -> Result<(), Stopped> {
    let l = answer_run(run, out);
    let _ = output.write_all(&run[..mark_size(run)]);
    let _ = output.write_all(&out[..l.filled]);
    if l.from == run.len() {
        Ok(())
    } else {
        Err(Stopped::LineLeft)
    }
}

fn write_runs<W: Write>(output: &mut W, bytes: &[u8], out: &mut [u8]) -> Result<(), Stopped> {
    let mut rest = bytes;
    while !rest.is_empty() {
        let (run, behind) = rest.split_at(next_mark(rest, 0));
        write_run(output, run, out)?;
        rest = behind;
    }
    Ok(())
}

// Reads the whole input and answers its runs. A read that fails counts as the end of the input, and is seen alike.
fn serve_runs<R: Read, W: Write>(input: &mut R, output: &mut W) -> Result<(), Stopped> {
    let mut buffer = [0u8; BUFFER];
    let mut out = [0u8; BUFFER];
    let count = read_full(input, &mut buffer);
    if count == buffer.len() {
        return Err(Stopped::InputTooLong);
    }
    write_runs(output, &buffer[..count], &mut out)
}

fn main(rt: HostRuntime) {
    if let Err(stopped) = serve_runs(&mut rt.stdin(), &mut rt.stdout()) {
        tell(&mut rt.stderr(), stopped.message());
    }
}
