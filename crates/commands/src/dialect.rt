// How a device has its addresses and its numbers. (dialect.rs)
ghost use Rattle.std.specs.Prelude.{◌≡◌};
ghost use Rattle.fields.specs.declared.value.Value.TheVariants.{Int};
ghost use Rattle.commands.specs.Dialect.{initial, addr_for, float_for, delay_for, mute_for, invert_for};

use fields::addr::Addr;
use fields::value::Value;
use numbers::fixed_point::FixedPoint;

#[derive(Clone, Copy, Debug, PartialEq, Eq)]
pub enum AddrEncoding {
    AddrLen2,
    AddrLen3,
}

#[derive(Clone, Copy, Debug, PartialEq, Eq)]
pub enum FloatEncoding {
    Float32LE,
    FixedPoint,
}

impl Default for AddrEncoding {
    fn default() -> Self
        ensures { result ≡ initial.addr_encoding }
    {
        AddrEncoding::AddrLen3
    }
}

impl Default for FloatEncoding {
    fn default() -> Self
        ensures { result ≡ initial.float_encoding }
    {
        FloatEncoding::Float32LE
    }
}

#[derive(Clone, Copy, Debug, PartialEq, Eq)]
pub struct Dialect {
    // Length of addresses sent, 3 or 2
    pub addr_encoding: AddrEncoding,
    // Encoding for floating point values
    pub float_encoding: FloatEncoding,
}

impl Dialect {
    pub fn const_default() -> Self
        ensures { result ≡ initial }
    {
        Dialect {
            addr_encoding: AddrEncoding::AddrLen3,
            float_encoding: FloatEncoding::Float32LE,
        }
    }

    pub fn addr(self, value: u16) -> Addr
        ensures { result ≡ addr_for self.addr_encoding value }
    {
        match self.addr_encoding {
            AddrEncoding::AddrLen2 => Addr::new(value, 2),
            AddrEncoding::AddrLen3 => Addr::new(value, 3),
        }
    }

    pub fn float(self, value: f32) -> Value
        ensures { result ≡ float_for self.float_encoding value }
    {
        match self.float_encoding {
            FloatEncoding::Float32LE => Value::Float(value),
            FloatEncoding::FixedPoint => Value::FixedPoint(FixedPoint::from_f32(value)),
        }
    }

    pub fn int(self, value: u16) -> Value
        ensures { result ≡ Int value }
    {
        Value::Int(value)
    }

    // An Int keeps the low sixteen bits.
    pub fn delay(self, num_samples: u32) -> Value
        ensures { result ≡ delay_for self.addr_encoding num_samples }
    {
        match self.addr_encoding {
            AddrEncoding::AddrLen2 => Value::Int32(num_samples),
            AddrEncoding::AddrLen3 => Value::Int((num_samples % 0x1_0000) as u16),
        }
    }

    pub fn mute(self, mute: bool) -> Value
        ensures { result ≡ mute_for self.addr_encoding mute }
    {
        match self.addr_encoding {
            AddrEncoding::AddrLen2 => Value::Int32(if mute { 0 } else { 0x0080_0000 }),
            AddrEncoding::AddrLen3 => Value::Int(if mute { 1 } else { 2 }),
        }
    }

    pub fn invert(self, value: bool) -> Value
        ensures { result ≡ invert_for self.addr_encoding value }
    {
        match self.addr_encoding {
            AddrEncoding::AddrLen2 => Value::Int32(if value { 0xff80_0000 } else { 0x0080_0000 }),
            AddrEncoding::AddrLen3 => Value::Int(value as u16),
        }
    }
}
