// Views of bytes.
ghost use Rattle.std.specs.Prelude.{◌≡◌, ◌-◌, min};
ghost use Rattle.octets.specs.Outcome.{outcome};
ghost use Rattle.views.specs.Reading.{part_at, byte_at, word_at};
ghost use Rattle.views.specs.View.{no_bytes, memory_in};
ghost use Rattle.views.specs.Joining.{memory_join};

use crate::{VIEWS_END, join, view_part};
use octets::{Place, Refusal, number};

#[derive(Clone, Copy)]
pub struct MemoryView {
    pub base: u16,
    pub data: Place,
}

// How many of more bytes are kept behind len bytes from base on: those below 65,535.
fn kept(base: u16, len: usize, more: usize) -> usize
    ensures { result ≡ min (65535 - base - len) more }
{
    let room = VIEWS_END - base as usize;
    room.saturating_sub(len).min(more)
}

impl Default for MemoryView {
    fn default() -> Self
        ensures { result ≡ no_bytes }
    {
        MemoryView {
            base: 0,
            data: Place { start: 0, len: 0 },
        }
    }
}

impl MemoryView {
    // The bytes of a 0x05 packet.
    pub fn from_packet(packet: &[u8]) -> Result<MemoryView, Refusal>
        ensures { outcome result ≡ memory_in packet.now }
    {
        let base = number::big16(packet, 1);
        let data = octets::rest_of(packet, 3);
        octets::needing(packet, 3, MemoryView { base, data })
    }

    // The place of len bytes from addr on, in the caller's bytes.
    pub fn read_at(self, bytes: &[u8], addr: u16, len: u8) -> Option<Place>
        ensures { result ≡ part_at self bytes.now addr len }
    {
        let data = self.data;
        if octets::is_outside(data, bytes.len()) {
            return None;
        }
        let place = view_part(self.base, data.len, addr, len)?;
        Some(Place {
            start: data.start + place.start,
            ..place
        })
    }

    #[tactic(auto, unfolding(crate::specs::Reading::byte_at))]
    pub fn read_u8(self, bytes: &[u8], addr: u16) -> Option<u8>
        ensures { result ≡ byte_at self bytes.now addr }
    {
        self.read_at(bytes, addr, 1)
            .map(|place| number::byte(bytes, place.start))
    }

    // The most significant byte first.
    #[tactic(auto, unfolding(crate::specs::Reading::word_at))]
    pub fn read_u16(self, bytes: &[u8], addr: u16) -> Option<u16>
        ensures { result ≡ word_at self bytes.now addr }
    {
        self.read_at(bytes, addr, 2)
            .map(|place| number::big16(bytes, place.start))
    }

    // Writes this view's bytes and the other's, which adjoins, over the start of out, so far as they
    // stand below 65,535: the Rust drops the rest.
    pub fn extend_with(
        self,
        bytes: &[u8],
        other: MemoryView,
        other_bytes: &[u8],
        out: &mut [u8],
    ) -> Result<MemoryView, Refusal>
        ensures { (outcome result, out.new) ≡ memory_join self bytes.now other other_bytes.now out.old }
    {
        let data = self.data;
        let rest = other.data;
        if octets::is_outside(data, bytes.len()) {
            return Err(Refusal::Outside);
        }
        if octets::is_outside(rest, other_bytes.len()) {
            return Err(Refusal::Outside);
        }
        let first = octets::part(bytes, data);
        let more = kept(self.base, data.len, rest.len);
        let second = octets::part(other_bytes, Place { len: more, ..rest });
        let len = join(self.base, data.len, other.base, first, second, out)?;
        Ok(MemoryView {
            base: self.base,
            data: Place { start: 0, len },
        })
    }
}
