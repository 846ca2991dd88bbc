// Facts about devices: their kinds, whether they have Dirac Live, their input sources, and where
// their EEPROM holds what. (lib.rs, device/probe.rs, source.rs, eeprom.rs)
#![tactic(auto)]

ghost use Rattle.std.specs.Prelude.{◌≡◌};
ghost use Rattle.facts.specs.DeviceInfo.{device_kind, supports_dirac};

use crate::probe::{DeviceKind, probe_kind};

pub mod eeprom;
pub mod probe;
pub mod source;

// A device's hardware id and dsp version, with its firmware and serial number.
#[derive(Clone, Copy, Debug, PartialEq, Eq)]
pub struct DeviceInfo {
    pub hw_id: u8,
    pub fw_major: u8,
    pub fw_minor: u8,
    pub dsp_version: u8,
    pub serial: u32,
}

// What a device answers when it is asked for its hardware id.
#[derive(Clone, Copy, Debug, PartialEq, Eq)]
pub struct HardwareId {
    pub fw_major: u8,
    pub fw_minor: u8,
    pub hw_id: u8,
}

impl DeviceInfo {
    // The device's kind.
    pub fn device_kind(self) -> DeviceKind
        ensures { result ≡ device_kind self.hw_id self.dsp_version }
    {
        probe_kind(self)
    }

    // Whether it has Dirac Live.
    #[tactic(auto, using(octets::proofs::Choosing::tests), unfolding(crate::specs::DeviceInfo::supports_dirac, octets::specs::Choice::if_eq))]
    pub fn supports_dirac(self) -> bool
        ensures { result ≡ supports_dirac self.dsp_version }
    {
        matches!(self.dsp_version, 61 | 94 | 95 | 101 | 105)
    }
}
