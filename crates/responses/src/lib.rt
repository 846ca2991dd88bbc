// Responses of the processor. (commands.rs)
#![tactic(auto)]

ghost use Rattle.std.specs.Prelude.{◌≡◌};
ghost use Rattle.octets.specs.Outcome.{outcome};
ghost use Rattle.responses.specs.Values.{values_count, nth_value};
ghost use Rattle.responses.specs.declared.Values.TheVariants.{Chunks};

use facts::HardwareId;
use fields::addr::Addr;
use fields::value::Value;
use octets::{Place, Refusal};
use views::floats::FloatView;
use views::memory::MemoryView;

pub mod decode;
pub mod encode;
pub mod kind;
pub mod matching;
pub mod status;

#[derive(Clone, Copy)]
pub enum Responses {
    Ack,
    Read { addr: Addr, data: Values },
    MemoryData(MemoryView),
    FloatData(FloatView),
    HardwareId(HardwareId),
    FirLoadSize { size: u16 },
    ConfigChanged,
    // 0x02: Seen during configuration restore as a response to Unk07
    Unk02,
    Unknown { cmd_id: u8, payload: Place },
}

// The values of a Read: those at a place in lent bytes, in chunks of four and the last perhaps
// shorter, as they are read; or one value, as a processor answers.
#[derive(Clone, Copy)]
pub enum Values {
    Chunks(Place),
    One(Value),
}

impl Values {
    // How many values there are.
    pub fn count(self) -> usize
        ensures { result ≡ values_count self }
    {
        match self {
            Values::Chunks(place) => place.len.div_ceil(4),
            Values::One(_) => 1,
        }
    }

    // Value number i; the bytes of those in chunks are lent beside.
    #[tactic(auto, using(octets::proofs::Choosing::tests))]
    pub fn get(self, bytes: &[u8], i: usize) -> Result<Value, Refusal>
        ensures { outcome result ≡ nth_value self bytes.now i }
    {
        match self {
            Values::Chunks(place) => chunk(place, bytes, i),
            Values::One(value) => {
                if i == 0 {
                    Ok(value)
                } else {
                    Err(Refusal::Outside)
                }
            }
        }
    }
}

// Chunk number i of the bytes at a place.
#[tactic(auto, using(octets::proofs::Choosing::tests, octets::proofs::Parts::found_inside))]
fn chunk(place: Place, bytes: &[u8], i: usize) -> Result<Value, Refusal>
    ensures { outcome result ≡ nth_value (Chunks place) bytes.now i }
{
    // four times i need not fit
    if octets::is_outside(place, bytes.len()) || place.len.div_ceil(4) <= i {
        return Err(Refusal::Outside);
    }
    let at = i * 4;
    let start = place.start + at;
    let len = (place.len - at).min(4);
    Ok(Value::at(bytes, Place { start, len }))
}
