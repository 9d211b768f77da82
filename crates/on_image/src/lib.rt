// A command on the keeper of an image. The image is loaded once, and only what the command changed is stored into it.
#![tactic(auto)]

ghost use Rattle.std.specs.Prelude.{◌≡◌, ◌≤◌, length};
ghost use Rattle.image.specs.Layout.{image_length};
ghost use Rattle.writing.specs.Puts.{least_output};
ghost use Rattle.on_image.specs.Apply.{stored_after, CommandImage};

use changes::{store_asked, store_ended, store_flight, store_passed};
use command::Command;
use image::load::load;
use image::store::store;
use keeper::calls::apply_command;
use keeper::number::number_of;
use keeper::steps::begun_with;
use keeper::tested::Tested;
use keeper::{Answer, Keeper};
use line::write_answer;
use writing::returned;

// Stores what a command changed, by its answer: `keeper` is the keeper that it handed back.
fn store_changes(image: &mut [u8], answer: Answer, keeper: Keeper)
    ensures { image.new ≡ stored_after answer keeper image.old }
{
    let edges = keeper.edges;
    match answer {
        // All else of a keeper that was started is as in a fresh one: so of the keeper handed back no array is read here, and none is copied for it.
        Answer::Started(_) => {
            let rule = keeper.rule;
            store(image, begun_with(keeper.board, rule, keeper.claim, edges))
        }
        Answer::At(..) => store_passed(image, edges, keeper.ticks),
        Answer::Sent(peer, _) => {
            store_asked(image, keeper.waiting, keeper.requests, peer, keeper.ticks)
        }
        Answer::Replied(peer, _) | Answer::Dropped(peer) => {
            store_ended(image, keeper.waiting, edges, keeper.conflicts, peer)
        }
        // The arrays are lent from locals of their own: to lend a field, all of the keeper would be copied first.
        Answer::Flight(peer) => {
            let out = keeper.out;
            let back = keeper.back;
            store_flight(image, peer, &out, &back)
        }
        Answer::Time { .. } | Answer::Waiting | Answer::Heater(..) | Answer::Refused(_) => {}
    }
}

// Applies the command to the keeper in the image, writes its answer to the output, and gives what the call returns.
pub fn answer_command(image: &mut [u8], command: Command, out: &mut [u8]) -> u32
    requires image_len { length image.old ≡ image_length }
    requires least_output_in_bounds { least_output ≤ length out.old }
    ensures { CommandImage image.old command out.old result image.new out.new }
{
    // The test is called here, and not by `Tested::of`, of which it would be a part, beside a copy of all of the keeper.
    let keeper = load(image);
    let started = keeper.counts_as_started();
    let outcome = apply_command(Tested { keeper, started }, command);
    let answer = outcome.answer;
    let next = outcome.keeper;
    let length = write_answer(out, answer, next);
    store_changes(image, answer, next);
    returned(number_of(answer), length)
}
