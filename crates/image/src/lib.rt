// A keeper as an image: a lent buffer of fixed length, so that a board can keep its keeper over a reset and go on.
#![tactic(auto)]

pub mod bytes;
pub mod load;
pub mod store;

ghost use Rattle.std.specs.Prelude.{◌≡◌, eqb, length};
ghost use Rattle.image.specs.Layout.{image_length};

// The length of an image.
pub const IMAGE_BYTES: usize = 360;

// The first byte of every image of this layout.
pub const VERSION: u8 = 2;

// Whether a buffer has the length of an image.
pub fn is_image(bytes: &[u8]) -> bool
    ensures { result ≡ eqb (length bytes.now) image_length }
{
    bytes.len() == IMAGE_BYTES
}
