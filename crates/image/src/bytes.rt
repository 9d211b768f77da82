// Numbers as bytes, lowest byte first. A store is public for the crate `changes`, which tests the buffer's length before it calls it.
ghost use Rattle.std.specs.Prelude.{◌≡◌, ℕ, ◌+◌, ◌≤◌, length};
ghost use Rattle.std.specs.Int.{w64};
ghost use Rattle.std.proofs.Common.{of_z, to_z};
ghost use Rattle.image.specs.Bytes.{number, lowest_first, stored};

// A number of an image, of WIDTH bytes.
pub trait Number<const WIDTH: usize>: Copy {
    // The number whose bits these are, and the bits of a number.
    ghost of_bits: { ℕ → Self };

    ghost bits: { Self → ℕ };

    fn from_bytes(bytes: &[u8; WIDTH]) -> Self
        ensures { result ≡ of_bits (number WIDTH 0 bytes.now) };

    fn to_bytes(self) -> [u8; WIDTH]
        ensures { result ≡ lowest_first WIDTH (bits self) };
}

impl Number<2> for u16 {
    ghost of_bits = { λ n. n };

    ghost bits = { λ n. n };

    #[tactic(auto, unfolding(crate::specs::Bytes::number))]
    fn from_bytes(bytes: &[u8; 2]) -> u16 {
        u16::from_le_bytes(*bytes)
    }

    #[tactic(auto, unfolding(crate::specs::Bytes::lowest_first))]
    fn to_bytes(self) -> [u8; 2] {
        self.to_le_bytes()
    }
}

impl Number<4> for u32 {
    ghost of_bits = { λ n. n };

    ghost bits = { λ n. n };

    #[tactic(auto, unfolding(crate::specs::Bytes::number))]
    fn from_bytes(bytes: &[u8; 4]) -> u32 {
        u32::from_le_bytes(*bytes)
    }

    #[tactic(auto, unfolding(crate::specs::Bytes::lowest_first))]
    fn to_bytes(self) -> [u8; 4] {
        self.to_le_bytes()
    }
}

impl Number<8> for u64 {
    ghost of_bits = { λ n. n };

    ghost bits = { λ n. n };

    #[tactic(auto, unfolding(crate::specs::Bytes::number))]
    fn from_bytes(bytes: &[u8; 8]) -> u64 {
        u64::from_le_bytes(*bytes)
    }

    #[tactic(auto, unfolding(crate::specs::Bytes::lowest_first))]
    fn to_bytes(self) -> [u8; 8] {
        self.to_le_bytes()
    }
}

// In two's complement.
impl Number<8> for i64 {
    ghost of_bits = { to_z w64 };

    ghost bits = { of_z w64 };

    fn from_bytes(bytes: &[u8; 8]) -> i64 {
        u64::from_bytes(bytes).cast_signed()
    }

    fn to_bytes(self) -> [u8; 8] {
        self.cast_unsigned().to_bytes()
    }
}

// The number at a place.
pub(crate) fn load_number<const WIDTH: usize, N: Number<WIDTH>>(image: &[u8], at: usize) -> N
    requires { at + WIDTH ≤ length image.now }
    ensures { result ≡ N.of_bits (number WIDTH at image.now) }
{
    let mut bytes = [0; WIDTH];
    bytes.copy_from_slice(&image[at..at + WIDTH]);
    N::from_bytes(&bytes)
}

// Puts a number's bytes at a place.
pub fn store_number<const WIDTH: usize, N: Number<WIDTH>>(image: &mut [u8], at: usize, n: N)
    requires { at + WIDTH ≤ length image.old }
    ensures { image.new ≡ stored image.old at (lowest_first WIDTH (N.bits n)) }
{
    image[at..at + WIDTH].copy_from_slice(&n.to_bytes());
}
