// A gain as a byte of half decibels down, and as a float. (Gain of commands.rs)
ghost use Rattle.std.specs.Prelude.{◌≡◌, from_bits, to_bits};
ghost use Rattle.std.specs.Float.{binary32};
ghost use Rattle.numbers.specs.Gain.{least_gain, most_gain, gain_byte, bits_of_byte};

use crate::float::to_bits;

#[derive(Clone, Copy)]
pub struct Gain(pub f32);

impl Gain {
    // The ends of the range in decibels, which are told and not held to. (MIN, MAX)
    pub fn min() -> f32
        ensures { result ≡ from_bits binary32 least_gain }
    {
        -127.0
    }

    pub fn max() -> f32
        ensures { result ≡ from_bits binary32 most_gain }
    {
        0.0
    }

    // By the names that docs/DIFFERENCES.md gives them, in place of the traits.
    pub fn default() -> Self
        ensures { result.0 ≡ from_bits binary32 0 }
    {
        Gain(0.0)
    }

    // Minus one half times the byte: 0 gives -0.0.
    pub fn from_u8(val: u8) -> Self
        ensures { result.0 ≡ from_bits binary32 (bits_of_byte val) }
    {
        Gain(-0.5 * (val as f32))
    }

    // Twice the size, cut toward zero, 255 above, and 0 for a NaN.
    pub fn to_u8(self) -> u8
        ensures { result ≡ gain_byte (to_bits binary32 self.0) }
    {
        gain_byte(to_bits(self.0))
    }
}

// The byte of a pattern. 0x3f00_0000 is one half, and 0x4300_0000 is 128.
fn gain_byte(bits: u32) -> u8
    ensures { result ≡ gain_byte bits }
{
    let p = bits % 0x8000_0000;
    if 0x7f80_0000 < p {
        return 0;
    }
    if p < 0x3f00_0000 {
        return 0;
    }
    if 0x4300_0000 <= p {
        return 255;
    }
    ((0x80_0000 + p % 0x80_0000) >> (149 - p / 0x80_0000)) as u8
}
