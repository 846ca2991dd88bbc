// Which response answers a command. (Commands::matches_response; it stands here, since commands know
// nothing of responses)
ghost use Rattle.std.specs.Prelude.{◌≡◌};
ghost use Rattle.responses.specs.ByKind.{is_accepted, by_kind};
ghost use Rattle.responses.specs.Matching.{matches, is_memory, are_floats};

use crate::Responses;
use commands::Commands;

pub fn matches_response(command: Commands, response: Responses) -> bool
    ensures { result ≡ matches command response }
{
    match command {
        Commands::ReadMemory { addr, size } => is_memory(response, addr, size),
        Commands::ReadFloats { addr, len } => are_floats(response, addr, len),
        Commands::ReadHardwareId => response.is_hardware_id(),
        Commands::SetConfig { .. } => response.is_config_changed(),
        Commands::FirLoadStart { .. } => response.is_fir_size(),
        Commands::Unk07 { .. } => is_unk02(response),
        Commands::Read { .. } => is_read(response),
        Commands::WriteMemory { .. }
        | Commands::SetSource { .. }
        | Commands::SetMute { .. }
        | Commands::SetVolume { .. }
        | Commands::WriteBiquad { .. }
        | Commands::WriteBiquadBypass { .. }
        | Commands::Write { .. }
        | Commands::FirLoadData { .. }
        | Commands::FirLoadEnd
        | Commands::BulkLoad { .. }
        | Commands::BulkLoadFilterData { .. }
        | Commands::DiracBypass { .. }
        | Commands::SwitchMux { .. } => response.is_ack(),
        Commands::Unknown { .. } => true,
    }
}

#[tactic(auto, using(octets::proofs::Choosing::tests))]
fn is_memory(response: Responses, addr: u16, size: u8) -> bool
    ensures { result ≡ is_memory addr size (by_kind response).memory }
{
    match response {
        Responses::MemoryData(view) => view.base == addr && view.data.len == size as usize,
        _ => false,
    }
}

#[tactic(auto, using(octets::proofs::Choosing::tests))]
fn are_floats(response: Responses, addr: u16, len: u8) -> bool
    ensures { result ≡ are_floats addr len (by_kind response).floats }
{
    match response {
        Responses::FloatData(view) => view.base == addr && view.count == len as usize,
        _ => false,
    }
}

fn is_read(response: Responses) -> bool
    ensures { result ≡ is_accepted (by_kind response).read }
{
    matches!(response, Responses::Read { .. })
}

fn is_unk02(response: Responses) -> bool
    ensures { result ≡ is_accepted (by_kind response).unk02 }
{
    matches!(response, Responses::Unk02)
}
