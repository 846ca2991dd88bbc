// What a processor is: its record, and the two memories that its caller lends, the EEPROM (bytes) and
// the settings (words). What it does stands in the crate device. (mock_device.rs)
#![tactic(auto)]

ghost use Rattle.std.specs.Prelude.{◌≡◌};
ghost use Rattle.processor.specs.Memory.{too_large, put_at};

use facts::probe::DeviceKind;

pub mod change;
pub mod create;
pub mod eeprom;

// The two memories are lent as two slices wherever they go together: so the C interface lends them, and so the contracts of this
// crate, of device and of saves name them, which may not change.

// What a device is beside its memories.
#[derive(Clone, Copy)]
pub struct Device {
    pub hw_id: u8,
    pub dsp_version: u8,
    pub fw_major: u8,
    pub fw_minor: u8,
    pub kind: DeviceKind,
    pub fir_max_taps: u16,
}

// The most bytes or words that a memory has.
pub const LARGEST: usize = 65536;

// Whether a memory is too large.
#[tactic(auto, using(octets::proofs::Choosing::tests))]
pub fn too_large(eeprom: usize, settings: usize) -> bool
    ensures { result ≡ too_large eeprom settings }
{
    LARGEST < eeprom || LARGEST < settings
}

// Writes that are inside; others write nothing.
fn put_bytes(addr: u16, bytes: &[u8], eeprom: &mut [u8])
    ensures { eeprom.new ≡ put_at addr bytes.now eeprom.old }
{
    let _ = octets::put_at(bytes, addr as usize, eeprom);
}
