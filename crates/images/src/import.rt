// Reading a text of Intel HEX into an image. The whole text is judged, row by row; then its rows are
// placed.
ghost use Rattle.std.specs.Prelude.{◌≡◌};
ghost use Rattle.octets.specs.Outcome.{outcome};
ghost use Rattle.intel_hex.specs.Reading.{lines_in};
ghost use Rattle.images.specs.Import.{imported_into, placed};
ghost use Rattle.images.specs.Inside.{rows_here};

use crate::judge::judge;
use crate::row::{line_end, line_of, place_line};
use octets::Refusal;
use processor::create::erase;

// Fills an image by a text, whole or not at all.
pub fn import(hex: &[u8], image: &mut [u8]) -> Result<(), Refusal>
    ensures { (outcome result, image.new) ≡ imported_into hex.now image.old }
{
    judge(hex, image.len())?;
    erase(image);
    place_rows(hex, image);
    Ok(())
}

// Places the rows of a text up to its end record. A `while`, since where a line ends is found as it is read.
fn place_rows(hex: &[u8], image: &mut [u8])
    ensures { image.new ≡ placed (rows_here (lines_in hex.now)) image.old }
{
    let mut rest = hex;
    while place_line(line_of(rest), image) {
        rest = &rest[line_end(rest)..];
    }
}
