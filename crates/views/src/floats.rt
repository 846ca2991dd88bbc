// Views of floats. A float stays bits, so that a NaN keeps its payload.
ghost use Rattle.std.specs.Prelude.{◌≡◌, ◌*◌, ◌≤◌};
ghost use Rattle.octets.specs.Outcome.{outcome};
ghost use Rattle.octets.specs.Place.{is_outside};
ghost use Rattle.views.specs.View.{no_floats, floats_in, view_of_floats};
ghost use Rattle.views.specs.Reading.{bits_at};
ghost use Rattle.views.specs.Joining.{floats_join};

use crate::{join, view_part};
use octets::{Place, Refusal, number};

// Not one view with a type of its items: a memory view's place may have any length and is cut where the Rust cuts it, and floats are
// counted in fours.
// As many floats as count says, from start on, of four little-endian bytes each.
#[derive(Clone, Copy, Debug, PartialEq, Eq)]
pub struct FloatView {
    pub base: u16,
    pub start: usize,
    pub count: usize,
}

impl Default for FloatView {
    fn default() -> Self
        ensures { result ≡ no_floats }
    {
        FloatView {
            base: 0,
            start: 0,
            count: 0,
        }
    }
}

impl FloatView {
    // The floats of a 0x14 packet; one to three bytes left over are dropped.
    pub fn from_packet(packet: &[u8]) -> Result<FloatView, Refusal>
        ensures { outcome result ≡ floats_in packet.now }
    {
        let view = FloatView {
            base: number::big16(packet, 1),
            start: 3,
            count: packet.len().saturating_sub(3) / 4,
        };
        octets::needing(packet, 3, view)
    }

    fn is_outside(self, have: usize) -> bool
        ensures { result ≡ is_outside (view_of_floats self).place have }
    {
        octets::floats_outside(self.start, self.count, have)
    }

    // Where its bytes are.
    fn place(self) -> Place
        requires { self.count * 4 ≤ 18446744073709551615 }
        ensures { result ≡ (view_of_floats self).place }
    {
        Place {
            start: self.start,
            len: self.count * 4,
        }
    }

    // The pattern of the float at addr.
    pub fn get(self, bytes: &[u8], addr: u16) -> Result<u32, Refusal>
        ensures { outcome result ≡ bits_at self bytes.now addr }
    {
        if self.is_outside(bytes.len()) {
            return Err(Refusal::Outside);
        }
        let place = view_part(self.base, self.count, addr, 1).ok_or(Refusal::Outside)?;
        Ok(number::little32(bytes, self.start + place.start * 4))
    }

    // Writes this view's bytes and the other's, which adjoins, over the start of out.
    pub fn extend_with(
        self,
        bytes: &[u8],
        other: FloatView,
        other_bytes: &[u8],
        out: &mut [u8],
    ) -> Result<FloatView, Refusal>
        ensures { (outcome result, out.new) ≡ floats_join self bytes.now other other_bytes.now out.old }
    {
        if self.is_outside(bytes.len()) {
            return Err(Refusal::Outside);
        }
        if other.is_outside(other_bytes.len()) {
            return Err(Refusal::Outside);
        }
        let first = octets::part(bytes, self.place());
        let second = octets::part(other_bytes, other.place());
        let len = join(self.base, self.count, other.base, first, second, out)?;
        Ok(FloatView {
            base: self.base,
            start: 0,
            count: len / 4,
        })
    }
}
