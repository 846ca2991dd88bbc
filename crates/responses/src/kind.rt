// Whether a response is of a kind, and what it holds then. (Responses::is_.., into_..)
ghost use Rattle.std.specs.Prelude.{◌≡◌};
ghost use Rattle.octets.specs.Outcome.{outcome};
ghost use Rattle.responses.specs.ByKind.{is_accepted, by_kind};

use crate::Responses;
use facts::HardwareId;
use octets::Refusal;
use views::floats::FloatView;
use views::memory::MemoryView;

// A pair for each kind, by the Rust's names: what a kind holds is of a type of its own.
impl Responses {
    pub fn is_memory_view(self) -> bool
        ensures { result ≡ is_accepted (by_kind self).memory }
    {
        matches!(self, Responses::MemoryData(_))
    }

    pub fn into_memory_view(self) -> Result<MemoryView, Refusal>
        ensures { outcome result ≡ (by_kind self).memory }
    {
        match self {
            Responses::MemoryData(view) => Ok(view),
            _ => Err(Refusal::OtherKind),
        }
    }

    pub fn is_float_view(self) -> bool
        ensures { result ≡ is_accepted (by_kind self).floats }
    {
        matches!(self, Responses::FloatData(_))
    }

    pub fn into_float_view(self) -> Result<FloatView, Refusal>
        ensures { outcome result ≡ (by_kind self).floats }
    {
        match self {
            Responses::FloatData(view) => Ok(view),
            _ => Err(Refusal::OtherKind),
        }
    }

    pub fn is_hardware_id(self) -> bool
        ensures { result ≡ is_accepted (by_kind self).hardware }
    {
        matches!(self, Responses::HardwareId(_))
    }

    pub fn into_hardware_id(self) -> Result<HardwareId, Refusal>
        ensures { outcome result ≡ (by_kind self).hardware }
    {
        match self {
            Responses::HardwareId(id) => Ok(id),
            _ => Err(Refusal::OtherKind),
        }
    }

    pub fn is_ack(self) -> bool
        ensures { result ≡ is_accepted (by_kind self).ack }
    {
        matches!(self, Responses::Ack)
    }

    pub fn into_ack(self) -> Result<(), Refusal>
        ensures { outcome result ≡ (by_kind self).ack }
    {
        match self {
            Responses::Ack => Ok(()),
            _ => Err(Refusal::OtherKind),
        }
    }

    pub fn is_config_changed(self) -> bool
        ensures { result ≡ is_accepted (by_kind self).config }
    {
        matches!(self, Responses::ConfigChanged)
    }

    pub fn into_config_changed(self) -> Result<(), Refusal>
        ensures { outcome result ≡ (by_kind self).config }
    {
        match self {
            Responses::ConfigChanged => Ok(()),
            _ => Err(Refusal::OtherKind),
        }
    }

    pub fn is_fir_size(self) -> bool
        ensures { result ≡ is_accepted (by_kind self).size }
    {
        matches!(self, Responses::FirLoadSize { .. })
    }

    pub fn into_fir_size(self) -> Result<u16, Refusal>
        ensures { outcome result ≡ (by_kind self).size }
    {
        match self {
            Responses::FirLoadSize { size } => Ok(size),
            _ => Err(Refusal::OtherKind),
        }
    }
}
