// The sizes in the first field of a save.
ghost use Rattle.std.specs.Prelude.{◌≡◌};
ghost use Rattle.octets.specs.Outcome.{outcome};
ghost use Rattle.streams.specs.Stream.{shape_of};

use crate::stream;
use octets::{Refusal, number};

// The sizes of the memories that a save is for.
#[derive(Clone, Copy, Debug, PartialEq, Eq)]
pub struct Shape {
    pub eeprom: usize,
    pub settings: usize,
}

// The sizes that the first field of a save tells.
#[tactic(auto, using(octets::proofs::Choosing::tests), unfolding(crate::specs::Stream::shape_of))]
pub fn shape_of(save: &[u8]) -> Result<Shape, Refusal>
    ensures { outcome result ≡ shape_of save.now }
{
    if save.len() < stream::FIRST
        || number::byte(save, 0) != stream::SHAPE
        || number::big16(save, 1) != 8
    {
        return Err(Refusal::WrongField);
    }
    Ok(Shape {
        eeprom: number::big32(save, 3) as usize,
        settings: number::big32(save, 7) as usize,
    })
}
