// Commands sent to the processor. (commands.rs, dialect.rs)
#![tactic(auto)]

ghost use Rattle.std.specs.Prelude.{◌≡◌};
ghost use Rattle.commands.specs.Mute.{write_ints, read_floats_max, mute_of};

use fields::addr::Addr;
use fields::value::Value;
use numbers::gain::Gain;
use octets::Place;

pub mod decode;
pub mod dialect;
pub mod encode;

// The most floats that are read by one command; the library reads as many as it is asked for.
pub fn read_floats_max() -> usize
    ensures { result ≡ read_floats_max }
{
    14
}

// As many floats as count says, from start on in lent bytes, of four little-endian bytes each.
#[derive(Clone, Copy, Debug, PartialEq, Eq)]
pub struct FirData {
    pub start: usize,
    pub count: usize,
}

// What a mux is switched to. A struct, so that the definitions know its numbers by their names.
#[derive(Clone, Copy, Debug, PartialEq, Eq)]
pub struct Mux {
    // start address
    pub addr: Addr,
    // how many slots there are
    pub max: u8,
    // written as the top bit of max
    pub arg: bool,
    pub slot: u8,
}

// A payload and floats stand at a place in lent bytes. The five values of WriteBiquad stand beside the
// command.
#[derive(Clone, Copy)]
pub enum Commands {
    // 0x31: Read hardware id
    ReadHardwareId,
    // 0x14: Reads float data from a given base address
    ReadFloats { addr: u16, len: u8 },
    // 0x04: Writes byte data to the given address
    WriteMemory { addr: u16, data: Place },
    // 0x05: Reads byte data from the given address
    ReadMemory { addr: u16, size: u8 },
    // 0x25: Sets the current configuration
    SetConfig { config: u8, reset: bool },
    // 0x34: Sets the current source
    SetSource { source: u8 },
    // 0x17: Sets the master mute setting
    SetMute { value: bool },
    // 0x42: Sets the master volume
    SetVolume { value: Gain },
    // 0x30: Writes biquad data
    WriteBiquad { addr: Addr },
    // 0x19: Toggles biquad filter bypass
    WriteBiquadBypass { addr: Addr, value: bool },
    // 0x02: Reads DSP data
    Read { addr: Addr, len: u8 },
    // 0x13: Writes DSP data
    Write { addr: Addr, value: Value },
    // 0x39: Starts a FIR load
    FirLoadStart { index: u8 },
    // 0x3a: FIR data
    FirLoadData { index: u8, data: FirData },
    // 0x3b: FIR data completed
    FirLoadEnd,
    // 0x3f: Dirac bypass
    DiracBypass { value: u8 },
    // 0x12: Seen when restoring a configuration
    BulkLoad { payload: Place },
    // 0x06: Seen after 0x12 in configuration restore
    BulkLoadFilterData { payload: Place },
    // 0x07: Seen in configuration restore
    Unk07 { payload: u8 },
    // 0x29: Switches a mux
    SwitchMux(Mux),
    Unknown { cmd_id: u8, payload: Place },
}

// The integer values of a 0x13 command.
pub mod write_int {
    pub const DISABLED: u16 = 1;

    pub const ENABLED: u16 = 2;

    pub const BYPASSED: u16 = 3;
}

// All three, in this order.
pub fn write_ints() -> [u16; 3]
    ensures { result ≡ write_ints }
{
    [write_int::DISABLED, write_int::ENABLED, write_int::BYPASSED]
}

impl Commands {
    pub fn mute(addr: Addr, value: bool) -> Self
        ensures { result ≡ mute_of addr value }
    {
        let code = if value {
            write_int::DISABLED
        } else {
            write_int::ENABLED
        };
        Commands::Write {
            addr,
            value: Value::Int(code),
        }
    }
}
