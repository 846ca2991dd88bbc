// A packet as a row of fields, and the one writer of all packets. Everything is settled on the row
// before anything is written.
ghost use Rattle.std.specs.Prelude.{◌≡◌, ◌*◌, ◌≤◌, min, false, [], ◌∷◌, length};
ghost use Rattle.std.specs.List.{list_any};
ghost use Rattle.octets.specs.Outcome.{outcome};
ghost use Rattle.octets.specs.Over.{into};
ghost use Rattle.octets.specs.Place.{floats_at, part_of, is_outside};
ghost use Rattle.packet.specs.Summing.{wrote, SumOf};
ghost use Rattle.fields.specs.Value.{value_bytes, value_outside};
ghost use Rattle.fields.specs.Row.{field_bytes, packet_of, misaddressed, misplaced, encoded_of, row_into, row_frame_into, padded};
ghost use Rattle.fields.specs.Inside.{Writable, AllWritable, encoded_length};

use crate::addr::Addr;
use crate::value::Value;
use octets::{Place, Refusal, number};
use packet::Summed;

// A field of a packet. A payload and floats stand in lent bytes; a float takes four of them.
#[derive(Clone, Copy)]
pub enum Field {
    Nothing,
    Byte(u8),
    Word(u16),
    Address(Addr),
    Coded(Value),
    Payload(Place),
    Floats { start: usize, count: usize },
}

fn is_misaddressed(field: Field) -> bool
    ensures { result ≡ misaddressed field }
{
    match field {
        Field::Address(a) => a.has_wrong_length(),
        _ => false,
    }
}

fn is_misplaced(field: Field, have: usize) -> bool
    ensures { result ≡ misplaced have field }
{
    match field {
        Field::Coded(value) => value.is_outside(have),
        Field::Payload(place) => octets::is_outside(place, have),
        Field::Floats { start, count } => octets::floats_outside(start, count, have),
        _ => false,
    }
}

fn any_misaddressed(row: [Field; 8]) -> bool
    ensures { result ≡ list_any misaddressed row }
{
    row.iter().any(|field| is_misaddressed(*field))
}

fn any_misplaced(row: [Field; 8], have: usize) -> bool
    ensures { result ≡ list_any (misplaced have) row }
{
    row.iter().any(|field| is_misplaced(*field, have))
}

// How many bytes a field takes, and 255 where it is more: no packet is that long.
fn field_len(field: Field, payload: &[u8]) -> usize
    requires { Writable payload.now field }
    ensures { result ≡ min 255 (length (field_bytes payload.now field)) }
{
    match field {
        Field::Nothing => 0,
        Field::Byte(_) => 1,
        Field::Word(_) => 2,
        Field::Address(a) => a.len as usize,
        Field::Coded(value) => value_len(value, payload),
        Field::Payload(place) => capped(place.len),
        Field::Floats { count, .. } => floats_len(count),
    }
}

fn value_len(value: Value, payload: &[u8]) -> usize
    requires { value_outside value (length payload.now) ≡ false }
    ensures { result ≡ min 255 (length (value_bytes value payload.now)) }
{
    match value {
        Value::Unknown(place) => capped(place.len),
        _ => 4,
    }
}

fn capped(n: usize) -> usize
    ensures { result ≡ min 255 n }
{
    n.min(255)
}

fn floats_len(count: usize) -> usize
    ensures { result ≡ min 255 (count * 4) }
{
    capped(count.saturating_mul(4))
}

// The same of a whole row.
fn row_len(row: [Field; 8], payload: &[u8]) -> usize
    requires { AllWritable payload.now row }
    ensures { result ≡ min 255 (length (packet_of payload.now row)) }
{
    let mut total = 0;
    for field in &row {
        total = capped(total + field_len(*field, payload));
    }
    total
}

// What writing the row comes to: how many bytes, at most 254, or 8, 7 or 5.
fn settled(row: [Field; 8], payload: &[u8]) -> Result<usize, Refusal>
    ensures { outcome result ≡ encoded_length (encoded_of payload.now row) }
{
    if any_misaddressed(row) {
        return Err(Refusal::AddressLength);
    }
    if any_misplaced(row, payload.len()) {
        return Err(Refusal::Outside);
    }
    let n = row_len(row, payload);
    if packet::LONGEST_PACKET < n {
        return Err(Refusal::TooLong);
    }
    Ok(n)
}

fn put_field(field: Field, payload: &[u8], out: &mut [u8]) -> Result<Summed, Refusal>
    requires { Writable payload.now field }
    ensures out_after { (wrote result, out.new) ≡ into (field_bytes payload.now field) out.old }
    ensures sum_of { SumOf (field_bytes payload.now field) result }
{
    match field {
        Field::Nothing => Ok(Summed { len: 0, sum: 0 }),
        Field::Byte(n) => packet::copy(&[n], out),
        Field::Word(n) => packet::copy(&number::big_bytes::<2>(u32::from(n)), out),
        Field::Address(a) => a.put(out),
        Field::Coded(value) => value.put(payload, out),
        Field::Payload(place) => packet::copy(octets::part(payload, place), out),
        Field::Floats { start, count } => put_floats(payload, start, count, out),
    }
}

fn put_floats(payload: &[u8], start: usize, count: usize, out: &mut [u8]) -> Result<Summed, Refusal>
    requires { is_outside (floats_at start count) (length payload.now) ≡ false }
    ensures out_after { (wrote result, out.new) ≡ into (part_of payload.now (floats_at start count)) out.old }
    ensures sum_of { SumOf (part_of payload.now (floats_at start count)) result }
{
    let len = count * 4;
    packet::copy(octets::part(payload, Place { start, len }), out)
}

// Writes the row over the start of out, field by field, and adds it up.
fn put_row(row: [Field; 8], payload: &[u8], out: &mut [u8]) -> Result<Summed, Refusal>
    requires all_writable { AllWritable payload.now row }
    requires row_len_bound { length (packet_of payload.now row) ≤ 254 }
    requires row_in_bounds { length (packet_of payload.now row) ≤ length out.old }
    ensures out_after { (wrote result, out.new) ≡ into (packet_of payload.now row) out.old }
    ensures sum_of { SumOf (packet_of payload.now row) result }
{
    let mut len = 0;
    let mut sum: u8 = 0;
    for field in &row {
        let put = put_field(*field, payload, &mut out[len..])?;
        sum = sum.wrapping_add(put.sum);
        len += put.len;
    }
    Ok(Summed { len, sum })
}

// Writes the packet of a row over the start of out.
pub fn write(row: [Field; 8], payload: &[u8], out: &mut [u8]) -> Result<usize, Refusal>
    ensures { (outcome result, out.new) ≡ row_into payload.now row out.old }
{
    let n = settled(row, payload)?;
    if out.len() < n {
        return Err(Refusal::NoRoom);
    }
    put_row(row, payload, out).map(|put| put.len)
}

// Writes the frame of a row's packet: the packet to out from its second byte onward, added up as it is
// written, which is then closed.
pub fn frame(row: [Field; 8], payload: &[u8], out: &mut [u8]) -> Result<usize, Refusal>
    ensures { (outcome result, out.new) ≡ row_frame_into payload.now row out.old }
{
    let n = settled(row, payload)?;
    if out.len() < n + 2 {
        return Err(Refusal::NoRoom);
    }
    let put = put_row(row, payload, &mut out[1..])?;
    packet::close_with(put.len, put.sum, out)
}

// Rows of one to four fields. Not one function over `[Field; N]`: it would have to ask that N is at most 8, and no public function
// requires.
#[tactic(auto, unfolding(crate::specs::Row::padded, crate::specs::Row::nothings))]
pub fn row1(a: Field) -> [Field; 8]
    ensures { result ≡ padded (a ∷ []) }
{
    row4(a, Field::Nothing, Field::Nothing, Field::Nothing)
}

#[tactic(auto, unfolding(crate::specs::Row::padded, crate::specs::Row::nothings))]
pub fn row2(a: Field, b: Field) -> [Field; 8]
    ensures { result ≡ padded (a ∷ b ∷ []) }
{
    row4(a, b, Field::Nothing, Field::Nothing)
}

#[tactic(auto, unfolding(crate::specs::Row::padded, crate::specs::Row::nothings))]
pub fn row3(a: Field, b: Field, c: Field) -> [Field; 8]
    ensures { result ≡ padded (a ∷ b ∷ c ∷ []) }
{
    row4(a, b, c, Field::Nothing)
}

#[tactic(auto, unfolding(crate::specs::Row::padded, crate::specs::Row::nothings))]
pub fn row4(a: Field, b: Field, c: Field, d: Field) -> [Field; 8]
    ensures { result ≡ padded (a ∷ b ∷ c ∷ d ∷ []) }
{
    let none = Field::Nothing;
    [a, b, c, d, none, none, none, none]
}
