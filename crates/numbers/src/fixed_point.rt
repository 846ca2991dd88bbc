// 5.23 fixed point, by whole-number work on the bits of floats. (fixed_point.rs)
ghost use Rattle.std.specs.Prelude.{◌≡◌, ◌+◌, ◌-◌, ◌*◌, ◌/◌, ◌%◌, ◌^◌, ◌<◌, pos, from_bits, to_bits};
ghost use Rattle.std.specs.Float.{binary32};
ghost use Rattle.std.specs.Float.Ieee.{of_int};
ghost use Rattle.numbers.specs.Pattern.{magnitude};
ghost use Rattle.numbers.specs.FixedPoint.{encoded, low_bits, code_of, around_zero, bits_of_code};

use crate::float::{from_bits, to_bits};

#[derive(Clone, Copy)]
pub struct FixedPoint(pub u32);

// By the names that docs/DIFFERENCES.md gives them, in place of the traits.
impl FixedPoint {
    pub fn default() -> Self
        ensures { result.0 ≡ 0 }
    {
        FixedPoint::from_u32(0)
    }

    pub fn from_u32(val: u32) -> Self
        ensures { result.0 ≡ val }
    {
        FixedPoint(val)
    }

    pub fn from_f32(val: f32) -> Self
        ensures { result.0 ≡ code_of (to_bits binary32 val) }
    {
        FixedPoint(code_of(to_bits(val)))
    }

    pub fn to_f32(self) -> f32
        ensures { result ≡ from_bits binary32 (bits_of_code self.0) }
    {
        rounded(around_zero(self.0)) / 8388608.0
    }

    pub fn to_u32(self) -> u32
        ensures { result ≡ self.0 }
    {
        self.0
    }
}

// The code of a pattern.
fn code_of(bits: u32) -> u32
    ensures { result ≡ code_of bits }
{
    let low = encoded_low(0x8000_0000 <= bits, bits % 0x8000_0000);
    let code = low ^ 0x0800_0000;
    if code < 0xf000_0000 {
        return code;
    }
    code % 0x1000_0000
}

// The float times 2^23, plus 2^27, rounded, as i64 as u32, of a pattern p without its sign.
// Patterns stand in the order of their magnitudes: 0x2680_0000 is 2^-27 of a step, which rounding
// loses below zero, and 0x5380_0000 is 2^63 steps.
fn encoded_low(below: bool, p: u32) -> u32
    requires { p < 2 ^ 31 }
    ensures { result ≡ low_bits 32 (encoded below (p / 2 ^ 23) (p % 2 ^ 23)) }
{
    let x = p / 0x80_0000;
    let t = p % 0x80_0000;
    if 0x7f80_0000 < p {
        return 0;
    }
    if below {
        if p <= 0x2680_0000 {
            return 0x0800_0000;
        }
        if 0x5380_0000 < p {
            return 0;
        }
        return std::num::wrapping_sub_u32(0x0800_0000, low_word(steps_up(x, t)));
    }
    if 0x5380_0000 <= p {
        return 0xffff_ffff;
    }
    low_word(steps_down(x, t) + 0x0800_0000)
}

fn low_word(n: u64) -> u32
    ensures { result ≡ n % 2 ^ 32 }
{
    (n % 0x1_0000_0000) as u32
}

// A magnitude in steps of 2^-23, cut down to a whole number.
fn steps_down(x: u32, t: u32) -> u64
    requires { (x < 167) × (t < 2 ^ 23) }
    ensures { result ≡ magnitude x t / 2 ^ 126 }
{
    let q = (0x80_0000 + t) as u64;
    if x < 103 {
        return 0;
    }
    if x < 127 {
        return q >> (127 - x);
    }
    q << (x - 127)
}

// The same, cut up.
fn steps_up(x: u32, t: u32) -> u64
    requires { (0 < x) × (x < 168) × (t < 2 ^ 23) }
    ensures { result ≡ (magnitude x t + (2 ^ 126 - 1)) / 2 ^ 126 }
{
    let q = (0x80_0000 + t) as u64;
    if x < 103 {
        return 1;
    }
    if x < 127 {
        let d = 127 - x;
        return (q + ((1u64 << d) - 1)) >> d;
    }
    q << (x - 127)
}

// The steps that a code stands for: bit 27 flipped, 2^27 taken away, wrapping, and the difference
// read as a signed number.
fn around_zero(code: u32) -> i32
    ensures { result ≡ around_zero code }
{
    let difference = std::num::wrapping_sub_u32(code ^ 0x0800_0000, 0x0800_0000);
    if difference < 0x8000_0000 {
        return difference as i32;
    }
    -1 - ((0xffff_ffff - difference) as i32)
}

// The float nearest to z.
fn rounded(z: i32) -> f32
    ensures { result ≡ of_int binary32 z }
{
    if z >= 0 {
        return halves(z as u32);
    }
    // -z does not fit at the least z
    -halves(((0 - (z + 1)) as u32) + 1)
}

// The float nearest to n: each half of n is a float exactly, so that only the sum rounds.
fn halves(n: u32) -> f32
    ensures { result ≡ of_int binary32 (pos n) }
{
    let upper = ((n >> 16) as f32) * 65536.0;
    let lower = (n & 0xffff) as f32;
    upper + lower
}
