// The fields of a save, read from the front: a tag, two length bytes, the content. What is not there
// reads as 0 or as nothing, and a field that is short has no tag.
ghost use Rattle.std.specs.Prelude.{◌≡◌, ◌+◌, drop};
ghost use Rattle.octets.specs.Outcome.{outcome};
ghost use Rattle.streams.specs.Stream.{tag_of, length_of, content_of, end_of, packet_in};

use octets::{Place, Refusal, number};

pub const SHAPE: u8 = 0x01;

pub const FRAME: u8 = 0x10;

pub const END: u8 = 0x7f;

// What stands before a field's content.
pub const HEAD: usize = 3;

// Where the first field of a save ends.
pub const FIRST: usize = 11;

// What stands behind the first field of a save.
pub fn fields_of(save: &[u8]) -> &[u8]
    ensures { result.now ≡ drop 11 save.now }
{
    octets::part(save, octets::rest_of(save, FIRST))
}

// The first field's tag, 0 where the field is short.
#[tactic(auto, using(octets::proofs::Choosing::tests), unfolding(crate::specs::Stream::tag_of))]
pub fn tag_of(rest: &[u8]) -> u8
    ensures { result ≡ tag_of rest.now }
{
    if rest.len() < field_end(rest) {
        0
    } else {
        number::byte(rest, 0)
    }
}

#[tactic(auto, using(octets::proofs::Choosing::tests), unfolding(crate::specs::Stream::content_of))]
pub fn content_of(rest: &[u8]) -> &[u8]
    ensures { result.now ≡ content_of rest.now }
{
    let len = number::big16(rest, 1) as usize;
    octets::part(rest, Place { start: HEAD, len })
}

// Where the first field ends.
pub fn field_end(rest: &[u8]) -> usize
    ensures { result ≡ 3 + length_of rest.now }
{
    HEAD + number::big16(rest, 1) as usize
}

// Whether what stands behind so many frames is the end of a save.
#[tactic(auto, using(octets::proofs::Choosing::tests), unfolding(crate::specs::Stream::end_of))]
pub fn end_of(rest: &[u8], frames: usize) -> Result<(), Refusal>
    ensures { outcome result ≡ end_of frames rest.now }
{
    if rest.len() != HEAD + 4
        || number::byte(rest, 0) != END
        || number::big16(rest, 1) != 4
        || number::big32(rest, HEAD) as usize != frames
    {
        return Err(Refusal::WrongField);
    }
    Ok(())
}

// The packet in a frame.
pub fn packet_in(frame: &[u8]) -> &[u8]
    ensures { result.now ≡ packet_in frame.now }
{
    let len = number::byte(frame, 0) as usize;
    octets::part(
        frame,
        Place {
            start: 1,
            len: len.saturating_sub(1),
        },
    )
}
