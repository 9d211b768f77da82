// The image of a keeper, put into a lent buffer.
ghost use Rattle.std.specs.Prelude.{◌≡◌, ◌+◌, ◌*◌, ◌≤◌, length, map};
ghost use Rattle.image.specs.Bytes.{each_lowest_first, stored};
ghost use Rattle.rules.specs.Rules.{rule_number};
ghost use Rattle.image.specs.Layout.{image_length, edge_bytes, own_bytes, image_after};

use crate::bytes::{Number, store_number};
use crate::{VERSION, is_image};
use keeper::Keeper;
use moment::Interval;

// Puts sixteen numbers one after the other from a place on.
fn store_sixteen<const WIDTH: usize, N: Number<WIDTH>>(
    image: &mut [u8],
    at: usize,
    numbers: &[N; 16],
)
    requires { at + 16 * WIDTH ≤ length image.old }
    ensures { image.new ≡ stored image.old at (each_lowest_first WIDTH (map N.bits numbers.now)) }
{
    for (p, n) in numbers.iter().enumerate() {
        store_number(image, at + WIDTH * p, *n);
    }
}

// Places 8 to 23. Public for the crate `changes`, as the stores of numbers are.
pub fn store_edges(image: &mut [u8], edges: Interval)
    requires { length image.old ≡ image_length }
    ensures { image.new ≡ stored image.old 8 (edge_bytes edges) }
{
    store_number(image, 8, edges.lower);
    store_number(image, 16, edges.upper);
}

// Places 0 to 39, all but the peers'.
fn store_own(image: &mut [u8], keeper: Keeper)
    requires { length image.old ≡ image_length }
    ensures { image.new ≡ stored image.old 0 (own_bytes keeper) }
{
    image[0] = VERSION;
    image[1] = u8::from(keeper.started);
    image[2] = keeper.board;
    let rule = keeper.rule;
    image[3] = u8::from(rule);
    store_number(image, 4, keeper.claim);
    store_number(image, 6, keeper.waiting);
    store_edges(image, keeper.edges);
    store_number(image, 24, keeper.ticks);
    store_number(image, 32, keeper.requests);
    store_number(image, 36, keeper.conflicts);
}

// A buffer of another length is left as it was.
pub fn store(image: &mut [u8], keeper: Keeper)
    ensures { image.new ≡ image_after image.old keeper }
{
    if !is_image(image) {
        return;
    }
    store_own(image, keeper);
    store_sixteen(image, 40, &keeper.tags);
    store_sixteen(image, 104, &keeper.sent_at);
    store_sixteen(image, 232, &keeper.out);
    store_sixteen(image, 296, &keeper.back);
}
