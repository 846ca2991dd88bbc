// Addresses of two or three bytes, whose top bit is set apart. (Addr of commands.rs)
ghost use Rattle.std.specs.Prelude.{◌≡◌, ◌*◌, ◌≤◌, true};
ghost use Rattle.octets.specs.Outcome.{outcome};
ghost use Rattle.packet.specs.Summing.{wrote, SumOf};
ghost use Rattle.fields.specs.Addr.{addr_of, width_if, addr_at, addr_from, addr_from_any, bit, wrong_length, addr_bytes, addr_into};

use octets::{Refusal, number};
use packet::Summed;

#[derive(Clone, Copy, Debug, PartialEq, Eq)]
pub struct Addr {
    pub val: u32,
    pub len: u8,
    pub extra_bit: bool,
}

impl Addr {
    pub fn new(val: u16, len: u8) -> Self
        ensures { result ≡ addr_of val len true }
    {
        Addr {
            val: val as u32,
            len,
            extra_bit: true,
        }
    }

    pub fn new_with_extra_bit(val: u32, len: u8, extra_bit: bool) -> Self
        ensures { result ≡ addr_of val len extra_bit }
    {
        Addr {
            val,
            len,
            extra_bit,
        }
    }

    // How many bytes an address takes: three where it is wide, else two.
    pub fn width(wide: bool) -> usize
        ensures { (result ≡ width_if wide) × (result ≤ 3) }
    {
        if wide { 3 } else { 2 }
    }

    // The address at a place; a byte that is not there reads as 0.
    #[tactic(auto, unfolding(crate::specs::Addr::addr_at))]
    pub fn at(bytes: &[u8], place: usize, wide: bool) -> Self
        ensures { result ≡ addr_at (width_if wide) bytes.now place }
    {
        if wide {
            let n = number::big24(bytes, place);
            Addr {
                val: n % 0x10_0000,
                len: 3,
                extra_bit: 0x80_0000 <= n,
            }
        } else {
            let n = number::big16(bytes, place) as u32;
            Addr {
                val: n % 0x1000,
                len: 2,
                extra_bit: 0x8000 <= n,
            }
        }
    }

    // The address at the start of a buffer, of two or of three bytes.
    #[tactic(auto, using(octets::proofs::Choosing::tests))]
    pub fn read(buf: &[u8], len: u8) -> Result<Addr, Refusal>
        ensures { outcome result ≡ addr_from_any len buf.now }
    {
        match len {
            2 => Addr::read_u16(buf),
            3 => Addr::read_u24(buf),
            _ => Err(Refusal::AddressLength),
        }
    }

    #[tactic(auto, using(octets::proofs::Choosing::tests))]
    pub fn read_u16(buf: &[u8]) -> Result<Addr, Refusal>
        ensures { outcome result ≡ addr_from 2 buf.now }
    {
        if buf.len() < 2 {
            return Err(Refusal::Ends);
        }
        Ok(Addr::at(buf, 0, false))
    }

    #[tactic(auto, using(octets::proofs::Choosing::tests))]
    pub fn read_u24(buf: &[u8]) -> Result<Addr, Refusal>
        ensures { outcome result ≡ addr_from 3 buf.now }
    {
        if buf.len() < 3 {
            return Err(Refusal::Ends);
        }
        Ok(Addr::at(buf, 0, true))
    }

    // Whether it cannot be written.
    #[tactic(auto, using(octets::proofs::Choosing::tests))]
    pub fn has_wrong_length(self) -> bool
        ensures { result ≡ wrong_length self.len }
    {
        !matches!(self.len, 2 | 3)
    }

    // Writes the address over the start of out.
    pub fn write(self, out: &mut [u8]) -> Result<usize, Refusal>
        ensures { (outcome result, out.new) ≡ addr_into self out.old }
    {
        self.put(out).map(|summed| summed.len)
    }

    // The same, added up as it is written.
    pub(crate) fn put(self, out: &mut [u8]) -> Result<Summed, Refusal>
        ensures out_after { (wrote result, out.new) ≡ addr_into self out.old }
        ensures sum_of { SumOf (addr_bytes self) result }
    {
        match self.len {
            2 => {
                let n = self.val % 0x8000 + top(self.extra_bit, 0x8000);
                packet::copy(&number::big_bytes::<2>(n), out)
            }
            3 => {
                let n = self.val % 0x80_0000 + top(self.extra_bit, 0x80_0000);
                packet::copy(&number::big_bytes::<3>(n), out)
            }
            _ => Err(Refusal::AddressLength),
        }
    }
}

// The weight of the top bit where it is set.
fn top(set: bool, weight: u32) -> u32
    ensures { (result ≡ bit set * weight) × (result ≤ weight) }
{
    if set { weight } else { 0 }
}
