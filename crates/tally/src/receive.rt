// Receiving a frame and counting it: with the tally by value, and with the tally lent by its caller
// and updated where it stands.
ghost use Rattle.std.specs.Prelude.{◌≡◌};
ghost use Rattle.octets.specs.Outcome.{outcome};
ghost use Rattle.processor.specs.Memory.{memory};
ghost use Rattle.device.specs.Execute.{received_into};
ghost use Rattle.tally.specs.Tally.{after};

use crate::Tally;
use device::execute::receive;
use octets::Refusal;
use processor::Device;

#[derive(Clone, Copy)]
pub struct Counted {
    pub answer: Result<usize, Refusal>,
    pub tally: Tally,
}

// Receives a frame, as `receive` does, and counts it.
pub fn receive_counted(
    tally: Tally,
    device: Device,
    frame: &[u8],
    eeprom: &mut [u8],
    settings: &mut [u32],
    out: &mut [u8],
) -> Counted
    ensures { ((outcome result.answer, memory eeprom.new settings.new, out.new) ≡ received_into device frame.now (memory eeprom.old settings.old) out.old) × (result.tally ≡ after tally (outcome result.answer)) }
{
    let answer = receive(device, frame, eeprom, settings, out);
    let tally = tally.count(answer);
    Counted { answer, tally }
}

// The same with the tally lent, which is updated where it stands.
// Three entries stay, each calling the one before: by value first, then over `&mut` (docs/TRACE.md), then for the bench.
pub fn receive_lent(
    tally: &mut Tally,
    device: Device,
    frame: &[u8],
    eeprom: &mut [u8],
    settings: &mut [u32],
    out: &mut [u8],
) -> Result<usize, Refusal>
    ensures { ((outcome result, memory eeprom.new settings.new, out.new) ≡ received_into device frame.now (memory eeprom.old settings.old) out.old) × (tally.new ≡ after tally.old (outcome result)) }
{
    let counted = receive_counted(*tally, device, frame, eeprom, settings, out);
    *tally = counted.tally;
    counted.answer
}

// The lent entry for a caller that has its tally by value and writes no reference: it is lent for the call.
pub fn receive_lending(
    tally: Tally,
    device: Device,
    frame: &[u8],
    eeprom: &mut [u8],
    settings: &mut [u32],
    out: &mut [u8],
) -> Counted
    ensures { ((outcome result.answer, memory eeprom.new settings.new, out.new) ≡ received_into device frame.now (memory eeprom.old settings.old) out.old) × (result.tally ≡ after tally (outcome result.answer)) }
{
    let mut lent = tally;
    let answer = receive_lent(&mut lent, device, frame, eeprom, settings, out);
    Counted {
        answer,
        tally: lent,
    }
}
