// Lines in a buffer: where one ends, and what is held of one that is not whole yet.
#![tactic(auto)]

ghost use Rattle.std.specs.Prelude.{◌≡◌, ◌+◌, ◌-◌, ◌≤◌, min, eqb, length, drop};
ghost use Rattle.lines.specs.Lines.{breaks, line_length, SameEnd, held_of, Held};

pub const LF: u8 = 10;

// How many bytes are looked at together, and then once more in the block that holds an LF.
const BLOCK: usize = 16;

const HALF: usize = 8;

// Whether no LF is among the bytes. No byte ends the search, so that the compiler compares all at once.
fn is_unbroken<const N: usize>(block: &[u8; N]) -> bool
    ensures { result ≡ eqb (breaks block.now) 0 }
{
    block
        .iter()
        .fold(true, |unbroken, byte| unbroken & (*byte != LF))
}

// The first place from `at` on at which a block begins that holds an LF, or that is not whole.
fn block_end(bytes: &[u8], at: usize) -> usize
    requires { at ≤ length bytes.now }
    ensures { SameEnd bytes.now at result }
{
    let (blocks, _) = bytes[at..].as_chunks::<BLOCK>();
    let passed = blocks
        .iter()
        .position(|block| !is_unbroken(block))
        .unwrap_or(blocks.len());
    at + BLOCK * passed
}

// The place behind half a block that holds no LF, else the place itself.
fn half_end(bytes: &[u8], at: usize) -> usize
    requires { at ≤ length bytes.now }
    ensures { SameEnd bytes.now at result }
{
    match bytes[at..].first_chunk::<HALF>() {
        Some(half) if is_unbroken(half) => at + HALF,
        _ => at,
    }
}

// The place of the first LF from a place on; the end of the bytes if there is none.
pub fn line_end(bytes: &[u8], at: usize) -> usize
    ensures { result ≡ at + line_length (drop at bytes.now) }
{
    if bytes.len() < at {
        return at;
    }
    let start = half_end(bytes, block_end(bytes, at));
    let rest = &bytes[start..];
    let length = rest
        .iter()
        .position(|byte| *byte == LF)
        .unwrap_or(rest.len());
    start + length
}

// How many bytes are held of those that stand from a place up to another.
fn held_count(length: usize, from: usize, end: usize, most: usize) -> usize
    ensures { result ≡ min most (min end length - from) }
{
    most.min(end.min(length).saturating_sub(from))
}

// Moves the first bytes of those that stand from a place up to another to the front of the buffer, and gives how many they are.
pub fn hold(buffer: &mut [u8], from: usize, end: usize, most: usize) -> usize
    ensures { Held buffer.old (held_of buffer.old from end most) buffer.new result }
{
    let n = held_count(buffer.len(), from, end, most);
    if n != 0 {
        buffer.copy_within(from..from + n, 0);
    }
    n
}
