// An image becomes a processor's EEPROM.
ghost use Rattle.std.specs.Prelude.{◌≡◌};
ghost use Rattle.octets.specs.Outcome.{outcome};
ghost use Rattle.images.specs.Store.{stored_image};

use octets::Refusal;
use processor::LARGEST;

// Stores an image of as many bytes as the EEPROM has.
#[tactic(auto, using(octets::proofs::Choosing::tests))]
pub fn store_image(image: &[u8], eeprom: &mut [u8]) -> Result<(), Refusal>
    ensures { (outcome result, eeprom.new) ≡ stored_image image.now eeprom.old }
{
    if LARGEST < eeprom.len() || image.len() != eeprom.len() {
        return Err(Refusal::WrongSizes);
    }
    eeprom.copy_from_slice(image);
    Ok(())
}
