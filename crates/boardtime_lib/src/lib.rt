// The keeper for firmware in C and Rust: functions on numbers and lent bytes. The keeper crosses as an image (crate `image`), which a board
// may keep over a reset. What a caller owes is in include/boardtime.h: valid buffers that do not overlap and that nothing else uses meanwhile.
#![tactic(auto)]

ghost use Rattle.std.specs.Prelude.{◌≡◌};
ghost use Rattle.boardtime_lib.specs.Images.{FreshImage, LineImage, PassImage};

use changes::store_passed;
use command::limits::ticks_within;
use image::is_image;
use image::load::load;
use image::store::store;
use keeper::Keeper;
use lent::pass;
use line::write_refusal;
use on_image::answer_command;
use reader::read_command;
use refusal::Refusal;
use writing::{LEAST_OUTPUT, returned};

// Returned for a buffer that has not the length of an image. No refusal of document 01 or 02 has this number.
pub const WRONG_LENGTH: u8 = 255;

// Stores the image of a fresh keeper.
#[unsafe(no_mangle)]
pub extern "C" fn boardtime_fresh(image: &mut [u8]) -> u8
    ensures { FreshImage image.old result image.new }
{
    if !is_image(image) {
        return WRONG_LENGTH;
    }
    store(image, Keeper::fresh());
    0
}

// Answers a line. The number is the result's lowest byte, and the length written the bytes above it. A refused call leaves the image as
// it was, to the byte, also an image that can't be read. The line is read first: if it is no command, the image is not looked at.
#[unsafe(no_mangle)]
pub extern "C" fn boardtime_line(image: &mut [u8], line: &[u8], out: &mut [u8]) -> u32
    ensures { LineImage image.old line.now out.old result image.new out.new }
{
    if !is_image(image) {
        return WRONG_LENGTH as u32;
    }
    if out.len() < LEAST_OUTPUT {
        return Refusal::NoRoom.number() as u32;
    }
    match read_command(line) {
        Ok(command) => answer_command(image, command, out),
        Err(refusal) => {
            let number = refusal.number();
            returned(number, write_refusal(out, number))
        }
    }
}

// Moves the keeper on by a number of ticks, as the line '(pass TICKS)' does, and writes no line. The number has 64 bits, so that a caller's
// number is never cut short on the way in: one above the limit is refused, whatever its lower half is.
#[unsafe(no_mangle)]
pub extern "C" fn boardtime_pass(image: &mut [u8], ticks: u64) -> u8
    ensures { PassImage image.old ticks result image.new }
{
    if !is_image(image) {
        return WRONG_LENGTH;
    }
    if !ticks_within(ticks) {
        return Refusal::OutsideLimits.number();
    }
    let passed = pass(load(image), ticks as u32);
    let refusal = passed.number;
    let next = passed.keeper;
    if refusal != 0 {
        return refusal;
    }
    let edges = next.edges;
    store_passed(image, edges, next.ticks);
    0
}
