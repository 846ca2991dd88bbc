// The listing of a save: a line for its sizes, one for each frame, and one for how many there are.
// A save is judged; then its text is made once, on a page that has room for every text
// (proofs/Fits.antt), and put whole or not at all.
#![tactic(auto)]

ghost use Rattle.std.specs.Prelude.{◌≡◌, ◌∷◌, ◌++◌, ◌≤◌, length, drop};
ghost use Rattle.octets.specs.Outcome.{outcome};
ghost use Rattle.octets.specs.Over.{into};
ghost use Rattle.text.specs.Digits.{decimal, hex_digits};
ghost use Rattle.processor.specs.Change.{writes_in};
ghost use Rattle.streams.specs.Stream.{stream_of};
ghost use Rattle.streams.specs.Inside.{frame_writes};
ghost use Rattle.listed.specs.Listing.{space, line_end, pair_line, setting_line, end_line, write_lines, listed_into};
ghost use Rattle.listed.specs.Inside.{Adds, lines_of, frames_text};

use octets::Refusal;
use processor::change::Change;
use streams::judge::judge;
use streams::means::meaning_of;
use streams::shape::Shape;
use streams::stream;

// The most bytes of a save that is listed.
const LONGEST_LISTED: usize = 32_768;

// Room for the text of any save that is listed.
const PAGE: usize = 65_536;

// Writes the text of a save.
pub fn list(save: &[u8], out: &mut [u8]) -> Result<usize, Refusal>
    ensures { (outcome result, out.new) ≡ listed_into save.now out.old }
{
    if LONGEST_LISTED < save.len() {
        return Err(Refusal::TooLong);
    }
    list_sound(judge(save)?, save, out)
}

fn list_sound(shape: Shape, save: &[u8], out: &mut [u8]) -> Result<usize, Refusal>
    requires { length (frames_text shape (drop 11 save.now)) ≤ 65536 }
    ensures { (outcome result, out.new) ≡ into (frames_text shape (drop 11 save.now)) out.old }
{
    let mut page = Page {
        bytes: [0; PAGE],
        end: 0,
    };
    page.add_text(shape, save);
    octets::put(&page.bytes[..page.end], out)
}

// A page, on which a text stands up to its end. What has no room is left out.
#[derive(Drop)]
struct Page {
    bytes: [u8; PAGE],
    end: usize,
    ghost within: { end ≤ 65536 },
}

impl Page {
    fn add_text(&mut self, shape: Shape, save: &[u8])
        ensures { Adds (frames_text shape (drop 11 save.now)) self.old.end self.old.bytes self.new.end self.new.bytes }
    {
        self.add_pair(b"shape ", shape.eeprom, shape.settings);
        let frames = self.add_lines(shape, stream::fields_of(save));
        self.add_end(frames);
    }

    // Adds the lines of the frames, and answers how many there are. A `while`, since how long a field is stands in its own
    // bytes: no iterator of the library goes over them.
    fn add_lines(&mut self, shape: Shape, fields: &[u8]) -> usize
        ensures { (result ≡ length (stream_of fields.now).frames) × Adds (lines_of shape.eeprom shape.settings fields.now) self.old.end self.old.bytes self.new.end self.new.bytes }
    {
        let mut rest = fields;
        let mut frames = 0;
        while stream::tag_of(rest) == stream::FRAME {
            self.add_frame(shape, stream::content_of(rest));
            frames += 1;
            let n = stream::field_end(rest);
            rest = &rest[n..];
        }
        frames
    }

    // The line of what a frame writes.
    fn add_frame(&mut self, shape: Shape, frame: &[u8])
        ensures { Adds (write_lines (frame_writes shape.eeprom shape.settings frame.now)) self.old.end self.old.bytes self.new.end self.new.bytes }
    {
        let packet = stream::packet_in(frame);
        if let Ok(change) = meaning_of(packet, shape.eeprom, shape.settings) {
            self.add_change(change, packet);
        }
    }

    fn add_change(&mut self, change: Change, packet: &[u8])
        ensures { Adds (write_lines (writes_in packet.now change)) self.old.end self.old.bytes self.new.end self.new.bytes }
    {
        match change {
            Change::Nothing => {}
            Change::EepromByte { addr, value: _ } => self.add_pair(b"memory ", addr as usize, 1),
            Change::EepromBytes { addr, data } => {
                let bytes = octets::part(packet, data);
                self.add_pair(b"memory ", addr as usize, bytes.len());
            }
            Change::SettingsWord { addr, value } => self.add_setting(addr as usize, value),
        }
    }

    fn add_pair(&mut self, name: &[u8], a: usize, b: usize)
        ensures { Adds (pair_line name.now a b) self.old.end self.old.bytes self.new.end self.new.bytes }
    {
        self.add_number(name, a);
        self.add_number(b" ", b);
        self.add(b"\n");
    }

    fn add_setting(&mut self, addr: usize, value: u32)
        ensures { Adds (setting_line addr value) self.old.end self.old.bytes self.new.end self.new.bytes }
    {
        self.add_number(b"setting ", addr);
        self.add(b" ");
        self.add(&text::hex8(value));
        self.add(b"\n");
    }

    fn add_end(&mut self, frames: usize)
        ensures { Adds (end_line frames) self.old.end self.old.bytes self.new.end self.new.bytes }
    {
        self.add_number(b"end ", frames);
        self.add(b"\n");
    }

    // A number behind a name.
    fn add_number(&mut self, name: &[u8], n: usize)
        ensures { Adds (name.now ++ decimal n) self.old.end self.old.bytes self.new.end self.new.bytes }
    {
        self.add(name);
        self.add_decimal(n);
    }

    fn add_decimal(&mut self, n: usize)
        ensures { Adds (decimal n) self.old.end self.old.bytes self.new.end self.new.bytes }
    {
        if let Ok(len) = text::put_decimal(n as u64, &mut self.bytes[self.end..]) {
            self.end += len;
        }
    }

    // Bytes, whole or not at all.
    fn add(&mut self, bytes: &[u8])
        ensures { Adds bytes.now self.old.end self.old.bytes self.new.end self.new.bytes }
    {
        if let Ok(len) = octets::put_at(bytes, self.end, &mut self.bytes) {
            self.end += len;
        }
    }
}
