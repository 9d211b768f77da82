// The keeper of an image.
ghost use Rattle.std.specs.Prelude.{◌≡◌, ◌+◌, ◌*◌, ◌≤◌, length, map};
ghost use Rattle.image.specs.Bytes.{numbers};
ghost use Rattle.image.specs.Layout.{image_length, keeper_in, keeper_at, readable, rule_of};

use crate::bytes::{Number, load_number};
use crate::{VERSION, is_image};
use keeper::Keeper;
use moment::Interval;
use rules::Rule;

// The sixteen numbers that stand one after the other from a place on.
fn load_sixteen<const WIDTH: usize, N: Number<WIDTH>>(image: &[u8], at: usize) -> [N; 16]
    requires { at + 16 * WIDTH ≤ length image.now }
    ensures { result ≡ map N.of_bits (numbers 16 WIDTH at image.now) }
{
    let mut loaded = [N::from_bytes(&[0; WIDTH]); 16];
    for (p, n) in loaded.iter_mut().enumerate() {
        *n = load_number(image, at + WIDTH * p);
    }
    loaded
}

fn rule_of(mm: bool) -> Rule
    ensures { result ≡ rule_of mm }
{
    if mm { Rule::Mm } else { Rule::Im }
}

// Whether the image can be read.
#[tactic(auto, unfolding(crate::specs::Layout::readable))]
fn is_readable(image: &[u8]) -> bool
    ensures { result ≡ readable image.now }
{
    is_image(image) && image[0] == VERSION && image[1] <= 1 && image[3] <= 1
}

// What stands in an image of the right length.
fn load_all(image: &[u8]) -> Keeper
    requires { length image.now ≡ image_length }
    ensures { result ≡ keeper_at image.now }
{
    Keeper {
        started: image[1] == 1,
        board: image[2],
        rule: rule_of(image[3] == 1),
        claim: load_number(image, 4),
        edges: Interval {
            lower: load_number(image, 8),
            upper: load_number(image, 16),
        },
        ticks: load_number(image, 24),
        requests: load_number(image, 32),
        conflicts: load_number(image, 36),
        waiting: load_number(image, 6),
        tags: load_sixteen(image, 40),
        sent_at: load_sixteen(image, 104),
        out: load_sixteen(image, 232),
        back: load_sixteen(image, 296),
    }
}

// An image that can't be read gives a fresh keeper.
pub fn load(image: &[u8]) -> Keeper
    ensures { result ≡ keeper_in image.now }
{
    if !is_readable(image) {
        return Keeper::fresh();
    }
    load_all(image)
}
