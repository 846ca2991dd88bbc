// Which device it is, by hardware id and dsp version. (device/probe.rs, all device features on)
ghost use Rattle.std.specs.Prelude.{◌≡◌};
ghost use Rattle.facts.specs.declared.probe.DeviceKind.TheVariants.{Generic};
ghost use Rattle.facts.specs.DeviceInfo.{device_kind};

use crate::DeviceInfo;
use DeviceKind::*;

#[derive(Clone, Copy, Debug, PartialEq, Eq)]
pub enum DeviceKind {
    Generic,
    M4x10Hd,
    M10x10Hd,
    MSharc4x8,
    M2x4Hd,
    Shd,
    DDRC24,
    DDRC88BM,
    Nanodigi2x8,
    C8x12v2,
    M2x4,
    Flex,
    FlexHtx,
}

impl DeviceKind {
    // no derived Default: its contract has the trait's words, and this one, which may not change, says `Generic`
    pub fn default() -> Self
        ensures { result ≡ Generic }
    {
        DeviceKind::Generic
    }
}

// The kind of a device, Generic where none is known.
#[tactic(auto, using(octets::proofs::Choosing::tests), unfolding(crate::specs::DeviceInfo::device_kind, octets::specs::Choice::if_both, octets::specs::Choice::if_eq))]
pub fn probe_kind(info: DeviceInfo) -> DeviceKind
    ensures { result ≡ device_kind info.hw_id info.dsp_version }
{
    match (info.hw_id, info.dsp_version) {
        (1, 51) => M10x10Hd,
        (1, _) => M4x10Hd,
        (4, _) => MSharc4x8,
        (10, 100) => M2x4Hd,
        (10, 101) => DDRC24,
        (6, 95) => DDRC88BM,
        (14, _) => Shd,
        (2, 54) => Nanodigi2x8,
        (11, 97) => C8x12v2,
        (2, 22) => M2x4,
        (27, 100) => Flex,
        (32, 115) => FlexHtx,
        _ => Generic,
    }
}
