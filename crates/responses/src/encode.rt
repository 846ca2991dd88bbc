// Writing responses: each is a row of fields. (Responses::to_bytes)
ghost use Rattle.std.specs.Prelude.{◌≡◌};
ghost use Rattle.octets.specs.Outcome.{outcome};
ghost use Rattle.fields.specs.Row.{row_into, row_frame_into, padded};
ghost use Rattle.responses.specs.declared.Responses.TheVariants.{MemoryData, FloatData};
ghost use Rattle.responses.specs.Encode.{response_row, values_field};

use crate::{Responses, Values};
use fields::row;
use fields::row::Field;
use octets::Refusal;
use views::floats::FloatView;
use views::memory::MemoryView;

impl Responses {
    // Writes the response's packet over the start of out. A payload stands in the bytes lent beside.
    #[tactic(auto, using(fields::proofs::Rows::encoded_padded))]
    pub fn to_bytes(self, payload: &[u8], out: &mut [u8]) -> Result<usize, Refusal>
        ensures { (outcome result, out.new) ≡ row_into payload.now (response_row self) out.old }
    {
        row::write(response_row(self), payload, out)
    }

    // Writes the response's frame.
    #[tactic(auto, using(fields::proofs::Rows::encoded_padded))]
    pub fn to_frame(self, payload: &[u8], out: &mut [u8]) -> Result<usize, Refusal>
        ensures { (outcome result, out.new) ≡ row_frame_into payload.now (response_row self) out.old }
    {
        row::frame(response_row(self), payload, out)
    }
}

#[tactic(auto, unfolding(fields::specs::Row::padded, fields::specs::Row::nothings))]
fn response_row(response: Responses) -> [Field; 8]
    ensures { result ≡ padded (response_row response) }
{
    match response {
        Responses::Ack => row::row1(Field::Nothing),
        Responses::Read { addr, data } => row::row3(
            Field::Byte(0x02),
            Field::Address(addr),
            values_field(data),
        ),
        Responses::MemoryData(view) => memory_row(view),
        Responses::FloatData(view) => floats_row(view),
        Responses::HardwareId(id) => row::row4(
            Field::Byte(0x31),
            Field::Byte(id.fw_major),
            Field::Byte(id.fw_minor),
            Field::Byte(id.hw_id),
        ),
        Responses::FirLoadSize { size } => row::row2(Field::Byte(0x39), Field::Word(size)),
        Responses::ConfigChanged => row::row1(Field::Byte(0xab)),
        Responses::Unk02 => row::row1(Field::Byte(0x02)),
        Responses::Unknown { cmd_id, payload } => row::row2(
            Field::Byte(cmd_id),
            Field::Payload(payload),
        ),
    }
}

fn memory_row(view: MemoryView) -> [Field; 8]
    ensures { result ≡ padded (response_row (MemoryData view)) }
{
    row::row3(
        Field::Byte(0x05),
        Field::Word(view.base),
        Field::Payload(view.data),
    )
}

fn floats_row(view: FloatView) -> [Field; 8]
    ensures { result ≡ padded (response_row (FloatData view)) }
{
    row::row3(
        Field::Byte(0x14),
        Field::Word(view.base),
        Field::Floats {
            start: view.start,
            count: view.count,
        },
    )
}

fn values_field(values: Values) -> Field
    ensures { result ≡ values_field values }
{
    match values {
        Values::Chunks(place) => Field::Payload(place),
        Values::One(value) => Field::Coded(value),
    }
}
