// Writing commands: each is a row of fields. (Commands::to_bytes)
ghost use Rattle.std.specs.Prelude.{◌≡◌, [], ◌∷◌};
ghost use Rattle.octets.specs.Outcome.{outcome};
ghost use Rattle.fields.specs.Row.{row_into, row_frame_into, padded};
ghost use Rattle.fields.specs.Addr.{addr_of};
ghost use Rattle.fields.specs.declared.row.Field.TheVariants.{Byte, Word, Address, Coded, Payload, Floats};
ghost use Rattle.commands.specs.declared.Commands.TheVariants.{WriteBiquad};
ghost use Rattle.commands.specs.Encode.{command_row, mux_byte};

use crate::{Commands, FirData, Mux};
use fields::addr::Addr;
use fields::row;
use fields::row::Field;
use fields::value::Value;
use octets::{Place, Refusal};

impl Commands {
    // Writes the command's packet over the start of out. A payload stands in the bytes lent beside.
    #[tactic(auto, using(fields::proofs::Rows::encoded_padded))]
    pub fn to_bytes(
        self,
        values: [Value; 5],
        payload: &[u8],
        out: &mut [u8],
    ) -> Result<usize, Refusal>
        ensures { (outcome result, out.new) ≡ row_into payload.now (command_row self values) out.old }
    {
        row::write(command_row(self, values), payload, out)
    }

    // Writes the command's frame.
    #[tactic(auto, using(fields::proofs::Rows::encoded_padded))]
    pub fn to_frame(
        self,
        values: [Value; 5],
        payload: &[u8],
        out: &mut [u8],
    ) -> Result<usize, Refusal>
        ensures { (outcome result, out.new) ≡ row_frame_into payload.now (command_row self values) out.old }
    {
        row::frame(command_row(self, values), payload, out)
    }
}

fn command_row(command: Commands, values: [Value; 5]) -> [Field; 8]
    ensures { result ≡ padded (command_row command values) }
{
    match command {
        Commands::ReadHardwareId => row::row1(Field::Byte(0x31)),
        Commands::ReadFloats { addr, len } => word_row(0x14, addr, Field::Byte(len)),
        Commands::WriteMemory { addr, data } => word_row(0x04, addr, Field::Payload(data)),
        Commands::ReadMemory { addr, size } => word_row(0x05, addr, Field::Byte(size)),
        Commands::SetConfig { config, reset } => config_row(config, reset as u8),
        Commands::SetSource { source } => byte_row(0x34, source),
        Commands::SetMute { value } => byte_row(0x17, value as u8),
        Commands::SetVolume { value } => byte_row(0x42, value.to_u8()),
        Commands::WriteBiquad { addr } => biquad_row(addr, values),
        Commands::WriteBiquadBypass { addr, value } => bypass_row(addr, value),
        Commands::Read { addr, len } => address_row(0x02, addr, Field::Byte(len)),
        Commands::Write { addr, value } => address_row(0x13, addr, Field::Coded(value)),
        Commands::FirLoadStart { index } => byte_row(0x39, index),
        Commands::FirLoadData { index, data } => fir_row(index, data),
        Commands::FirLoadEnd => row::row1(Field::Byte(0x3b)),
        Commands::DiracBypass { value } => byte_row(0x3f, value),
        Commands::BulkLoad { payload } => payload_row(0x12, payload),
        Commands::BulkLoadFilterData { payload } => payload_row(0x06, payload),
        Commands::Unk07 { payload } => byte_row(0x07, payload),
        Commands::SwitchMux(mux) => mux_row(mux),
        Commands::Unknown { cmd_id, payload } => payload_row(cmd_id, payload),
    }
}

// Rows of the shapes that several commands have. Each is one call, and one for all shapes would say at each command what these
// say once.
fn byte_row(code: u8, value: u8) -> [Field; 8]
    ensures { result ≡ padded (Byte code ∷ Byte value ∷ []) }
{
    row::row2(Field::Byte(code), Field::Byte(value))
}

fn payload_row(code: u8, place: Place) -> [Field; 8]
    ensures { result ≡ padded (Byte code ∷ Payload place ∷ []) }
{
    row::row2(Field::Byte(code), Field::Payload(place))
}

fn word_row(code: u8, addr: u16, field: Field) -> [Field; 8]
    ensures { result ≡ padded (Byte code ∷ Word addr ∷ field ∷ []) }
{
    row::row3(Field::Byte(code), Field::Word(addr), field)
}

fn address_row(code: u8, addr: Addr, field: Field) -> [Field; 8]
    ensures { result ≡ padded (Byte code ∷ Address addr ∷ field ∷ []) }
{
    row::row3(Field::Byte(code), Field::Address(addr), field)
}

fn config_row(config: u8, reset: u8) -> [Field; 8]
    ensures { result ≡ padded (Byte 0x25 ∷ Byte config ∷ Byte reset ∷ []) }
{
    row::row3(Field::Byte(0x25), Field::Byte(config), Field::Byte(reset))
}

fn bypass_row(addr: Addr, value: bool) -> [Field; 8]
    ensures { result ≡ padded (Byte 0x19 ∷ Address (addr_of addr.val addr.len value) ∷ []) }
{
    let addr = Addr::new_with_extra_bit(addr.val, addr.len, value);
    row::row2(Field::Byte(0x19), Field::Address(addr))
}

fn fir_row(index: u8, data: FirData) -> [Field; 8]
    ensures { result ≡ padded (Byte 0x3A ∷ Byte index ∷ Floats «data».start «data».count ∷ []) }
{
    row::row3(
        Field::Byte(0x3a),
        Field::Byte(index),
        Field::Floats {
            start: data.start,
            count: data.count,
        },
    )
}

fn mux_row(mux: Mux) -> [Field; 8]
    ensures { result ≡ padded (Byte 0x29 ∷ Address mux.addr ∷ Byte (mux_byte mux.max mux.arg) ∷ Byte mux.slot ∷ []) }
{
    row::row4(
        Field::Byte(0x29),
        Field::Address(mux.addr),
        Field::Byte(mux_byte(mux.max, mux.arg)),
        Field::Byte(mux.slot),
    )
}

// The mux's largest number, its top bit set where arg is.
fn mux_byte(max: u8, arg: bool) -> u8
    ensures { result ≡ mux_byte max arg }
{
    if arg { 128 + max % 128 } else { max }
}

#[tactic(auto, unfolding(fields::specs::Row::padded, fields::specs::Row::nothings))]
fn biquad_row(addr: Addr, values: [Value; 5]) -> [Field; 8]
    ensures { result ≡ padded (command_row (WriteBiquad addr) values) }
{
    let [v0, v1, v2, v3, v4] = values;
    [
        Field::Byte(0x30),
        Field::Address(addr),
        Field::Word(0),
        Field::Coded(v0),
        Field::Coded(v1),
        Field::Coded(v2),
        Field::Coded(v3),
        Field::Coded(v4),
    ]
}
