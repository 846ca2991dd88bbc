// What the bench holds between requests: the device, how much of each memory is lent, how many bytes of a
// save or a text are kept, the tally, and how many requests there were.
use bench_device::make::of_device;
use bench_words::*;
use facts::probe::DeviceKind;
use images::export::export;
use octets::Refusal;
use processor::Device;
use programs::lent::front;
use saves::save::save;
use tally::Tally;
use tally::receive::receive_lending;

#[derive(Clone, Copy)]
pub struct Held {
    pub device: Device,
    pub eeprom: u32,
    pub settings: u32,
    pub kept: u32,
    tally: Tally,
    requests: u32,
}

impl Held {
    // A bare device on no memory.
    pub fn first() -> Held {
        Held {
            device: Device {
                hw_id: 0,
                dsp_version: 0,
                fw_major: 1,
                fw_minor: 13,
                kind: DeviceKind::Generic,
                fir_max_taps: 0,
            },
            eeprom: 0,
            settings: 0,
            kept: 0,
            tally: Tally::zeroed(),
            requests: 0,
        }
    }

    // With one request more.
    pub fn count(&mut self) {
        self.requests = self.requests.wrapping_add(1);
    }

    // Requests about what is held, and those that change nothing else.
    pub fn ask(&mut self, verb: usize, n: Numbers) -> Answer {
        match verb {
            1001 => self.lend(n),
            1005 => of(self.tally.accepted, self.tally.refused, 0, 0),
            1006 => {
                self.tally = Tally::zeroed();
                number(0)
            }
            1025 => self.shown(),
            _ => number(self.requests),
        }
    }

    fn lend(&mut self, n: Numbers) -> Answer {
        let [eeprom, settings, ..] = n;
        self.eeprom = eeprom;
        self.settings = settings;
        number(0)
    }

    // The device as its making answers it, and how much is lent and kept.
    fn shown(&self) -> Answer {
        let mut answer = of_device(self.device);
        answer.numbers[6] = self.eeprom;
        answer.numbers[7] = self.settings;
        answer.numbers[8] = self.kept;
        answer
    }

    pub fn send(
        &mut self,
        frame: &[u8],
        eeprom: &mut [u8],
        settings: &mut [u32],
        out: &mut [u8],
    ) -> Answer {
        let counted = receive_lending(self.tally, self.device, frame, eeprom, settings, out);
        self.tally = counted.tally;
        written(counted.answer)
    }

    pub fn keep_save(
        &mut self,
        room: u32,
        eeprom: &[u8],
        settings: &[u32],
        kept: &mut [u8],
    ) -> Answer {
        self.keep(save(eeprom, settings, front(kept, room as usize)))
    }

    pub fn keep_hex(&mut self, room: u32, eeprom: &[u8], kept: &mut [u8]) -> Answer {
        self.keep(export(eeprom, front(kept, room as usize)))
    }

    // Answers that so many bytes are kept; what is refused leaves what is kept.
    pub fn keep(&mut self, answer: Result<usize, Refusal>) -> Answer {
        match answer {
            Ok(n) => {
                self.kept = low(n);
                number(low(n))
            }
            Err(k) => refused(k),
        }
    }
}
