// What a command would do: its answer, and at most one change of the memories. Nothing is stored here.
ghost use Rattle.std.specs.Prelude.{◌≡◌, false, List, ℕ, ◌≤◌, eqb, length};
ghost use Rattle.octets.specs.Number.{little_at};
ghost use Rattle.fields.specs.Value.{value_bytes, value_outside};
ghost use Rattle.responses.specs.declared.Responses.TheVariants.{FirLoadSize};
ghost use Rattle.processor.specs.declared.change.Change.TheVariants.{Nothing};
ghost use Rattle.device.specs.Inside.{decided, does, data_length, answer_length};
ghost use Rattle.device.specs.Effect.{effect_of, taken_of, identity_of, reading_of, read_memory_does, write_memory_does, read_floats_does, write_does, set_byte};

use commands::Commands;
use facts::HardwareId;
use facts::eeprom::{MASTER_VOLUME, MUTE, PRESET, SOURCE};
use fields::addr::Addr;
use fields::value::Value;
use numbers::fixed_point::FixedPoint;
use octets::{Place, Refusal, number};
use processor::change::Change;
use processor::{Device, LARGEST};
use responses::Responses::{Ack, ConfigChanged, Unk02};
use responses::{Responses, Values};
use views::floats::FloatView;
use views::memory::MemoryView;

// What would be done: the answer, and at most one change of the memories.
#[derive(Clone, Copy)]
pub struct Plan {
    pub response: Responses,
    pub change: Change,
}

// Read's answer, the code of -10 dB
const READ_ANSWER: u32 = 0x0028_7A26;

// A payload of the answer, from eeprom or settings, stands at the start of its own bytes.
pub fn decide(
    device: Device,
    command: Commands,
    payload: &[u8],
    e: usize,
    s: usize,
) -> Result<Plan, Refusal>
    ensures { (decided payload.now result ≡ effect_of device payload.now e s command) × (answer_length result ≤ 1020) }
{
    match command {
        Commands::ReadHardwareId => tells(identity(device)),
        Commands::ReadMemory { addr, size } => read_memory(addr, size, e),
        Commands::WriteMemory { addr, data } => write_memory(addr, data, payload, e),
        Commands::ReadFloats { addr, len } => read_floats(addr, len, s),
        Commands::Write { addr, value } => write_word(addr.val, value, payload, s),
        Commands::SetConfig { config, reset: _ } => set_byte(PRESET, config, e, ConfigChanged),
        Commands::SetSource { source } => set_byte(SOURCE, source, e, Ack),
        Commands::SetMute { value } => set_byte(MUTE, value as u8, e, Ack),
        Commands::SetVolume { value } => set_byte(MASTER_VOLUME, value.to_u8(), e, Ack),
        Commands::FirLoadStart { .. } => tells(fir_size(device)),
        Commands::Unk07 { .. } => tells(Unk02),
        Commands::Read { addr, len: _ } => tells(reading(addr)),
        Commands::WriteBiquad { .. }
        | Commands::WriteBiquadBypass { .. }
        | Commands::FirLoadData { .. }
        | Commands::FirLoadEnd
        | Commands::DiracBypass { .. }
        | Commands::BulkLoad { .. }
        | Commands::BulkLoadFilterData { .. }
        | Commands::SwitchMux { .. }
        | Commands::Unknown { .. } => tells(Ack),
    }
}

fn tells(response: Responses) -> Result<Plan, Refusal>
    ensures { result ≡ does response Nothing }
{
    Ok(Plan {
        response,
        change: Change::Nothing,
    })
}

fn identity(device: Device) -> Responses
    ensures { result ≡ identity_of device }
{
    Responses::HardwareId(HardwareId {
        fw_major: device.fw_major,
        fw_minor: device.fw_minor,
        hw_id: device.hw_id,
    })
}

fn fir_size(device: Device) -> Responses
    ensures { result ≡ FirLoadSize device.fir_max_taps }
{
    Responses::FirLoadSize {
        size: device.fir_max_taps,
    }
}

fn reading(addr: Addr) -> Responses
    ensures { result ≡ reading_of addr }
{
    Responses::Read {
        addr,
        data: Values::One(Value::FixedPoint(FixedPoint::from_u32(READ_ANSWER))),
    }
}

// How many of size bytes come from the EEPROM.
pub fn taken(addr: u16, size: usize) -> usize
    ensures { (result ≡ taken_of addr size) × (result ≤ size) }
{
    let addr = addr as usize;
    if size <= LARGEST - addr {
        size
    } else {
        LARGEST - 1 - addr
    }
}

fn read_memory(base: u16, size: u8, e: usize) -> Result<Plan, Refusal>
    ensures { ((p : List ℕ) → decided p result ≡ read_memory_does e base size) × (answer_length result ≤ 1020) }
{
    let len = size as usize;
    if e < base as usize + taken(base, len) {
        return Err(Refusal::Outside);
    }
    let data = Place { start: 0, len };
    tells(Responses::MemoryData(MemoryView { base, data }))
}

fn read_floats(base: u16, len: u8, s: usize) -> Result<Plan, Refusal>
    ensures { ((p : List ℕ) → decided p result ≡ read_floats_does s base len) × (answer_length result ≤ 1020) }
{
    let count = len as usize;
    if s < base as usize + count {
        return Err(Refusal::Outside);
    }
    let start = 0;
    tells(Responses::FloatData(FloatView { base, start, count }))
}

fn write_memory(addr: u16, data: Place, payload: &[u8], e: usize) -> Result<Plan, Refusal>
    ensures { (decided payload.now result ≡ write_memory_does payload.now e addr «data») × (answer_length result ≤ 1020) }
{
    if octets::is_outside(data, payload.len()) {
        return Err(Refusal::Outside);
    }
    if e < addr as usize || e - (addr as usize) < data.len {
        return Err(Refusal::Outside);
    }
    Ok(Plan {
        response: Ack,
        change: Change::EepromBytes { addr, data },
    })
}

fn set_byte(addr: u16, value: u8, e: usize, response: Responses) -> Result<Plan, Refusal>
    ensures { ((p : List ℕ) → decided p result ≡ set_byte e addr value response) × (answer_length result ≤ data_length response) }
{
    if (addr as usize) < e {
        Ok(Plan {
            response,
            change: Change::EepromByte { addr, value },
        })
    } else {
        Err(Refusal::Outside)
    }
}

// A value of another length than four names nothing.
fn write_word(addr: u32, value: Value, payload: &[u8], s: usize) -> Result<Plan, Refusal>
    ensures { (decided payload.now result ≡ write_does payload.now s addr value) × (answer_length result ≤ 1020) }
{
    if value.is_outside(payload.len()) {
        return Err(Refusal::Outside);
    }
    if is_four(value) {
        if s <= addr as usize {
            return Err(Refusal::Outside);
        }
        let word = word_of(value, payload);
        return Ok(Plan {
            response: Ack,
            change: Change::SettingsWord { addr, value: word },
        });
    }
    tells(Ack)
}

fn is_four(value: Value) -> bool
    ensures { (p : List ℕ) → value_outside value (length p) ≡ false → result ≡ eqb (length (value_bytes value p)) 4 }
{
    match value {
        Value::Float(_) | Value::FixedPoint(_) | Value::Int(_) | Value::Int32(_) => true,
        Value::Unknown(place) => place.len == 4,
    }
}

// The value's four bytes, the least significant first.
fn word_of(value: Value, payload: &[u8]) -> u32
    requires { (value_outside value (length payload.now) ≡ false) × (length (value_bytes value payload.now) ≡ 4) }
    ensures { result ≡ little_at 4 (value_bytes value payload.now) 0 }
{
    let mut bytes = [0u8; 4];
    let _ = value.into_bytes(payload, &mut bytes);
    number::little32(&bytes, 0)
}
