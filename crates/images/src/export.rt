// Writing an EEPROM as Intel HEX: rows of 16 bytes, the last shorter, then the end record.
ghost use Rattle.std.specs.Prelude.{◌≡◌, ◌+◌, ◌-◌, ◌*◌, ◌%◌, ◌<◌, ◌≤◌, min, [], ◌∷◌, ◌++◌, length};
ghost use Rattle.octets.specs.Outcome.{outcome};
ghost use Rattle.octets.specs.Over.{over};
ghost use Rattle.octets.specs.Number.{big_bytes};
ghost use Rattle.text.specs.Digits.{pairs_of};
ghost use Rattle.intel_hex.specs.Format.{hex_row, complement, row_text};
ghost use Rattle.intel_hex.specs.Writing.{export_row, export_rows};
ghost use Rattle.images.specs.Export.{exported_into};

use octets::{Place, Refusal};
use processor::LARGEST;

// How many bytes of the EEPROM a row has; the last may have fewer.
const ROW: usize = 16;

// A row's text beside its data: a colon, four bytes before them, one behind, and the line end.
const AROUND: usize = 12;

// Writes the EEPROM's text over the start of out.
#[tactic(auto, using(octets::proofs::Choosing::tests))]
pub fn export(eeprom: &[u8], out: &mut [u8]) -> Result<usize, Refusal>
    ensures { (outcome result, out.new) ≡ exported_into eeprom.now out.old }
{
    if LARGEST < eeprom.len() {
        return Err(Refusal::WrongSizes);
    }
    let rows = eeprom.len().div_ceil(ROW);
    let end = 2 * eeprom.len() + AROUND * rows;
    if out.len() < end + 12 {
        return Err(Refusal::NoRoom);
    }
    put_rows(eeprom, rows, out);
    let _ = octets::put(b":00000001FF\n", &mut out[end..]);
    Ok(end + 12)
}

// Each row but the last takes 44 bytes, so that they stand 44 bytes apart.
fn put_rows(eeprom: &[u8], rows: usize, out: &mut [u8])
    requires are_rows { (16 * rows ≤ length eeprom.now + 15) × (length eeprom.now ≤ 65536) }
    requires room { 2 * length eeprom.now + 12 * rows ≤ length out.old }
    ensures { out.new ≡ over (export_rows eeprom.now rows) out.old }
{
    for k in 0..rows {
        put_row(k, eeprom, &mut out[44 * k..]);
    }
}

// The k-th row of the EEPROM.
fn put_row(k: usize, eeprom: &[u8], out: &mut [u8])
    requires is_row { (16 * k < length eeprom.now) × (length eeprom.now ≤ 65536) }
    requires room { 12 + 2 * min 16 (length eeprom.now - 16 * k) ≤ length out.old }
    ensures { out.new ≡ over (row_text (export_row eeprom.now k) ++ (10 ∷ [])) out.old }
{
    let start = ROW * k;
    let row = octets::part(eeprom, Place { start, len: ROW });
    put_record(start as u16, row, out);
}

// A data record as a line.
fn put_record(start: u16, bytes: &[u8], out: &mut [u8])
    requires { (length bytes.now < 256) × (12 + 2 * length bytes.now ≤ length out.old) }
    ensures { out.new ≡ over (row_text (hex_row start bytes.now) ++ (10 ∷ [])) out.old }
{
    let head = head_of(bytes.len() as u8, start);
    let sum = complement_of(packet::checksum(&head), packet::checksum(bytes));
    let _ = octets::put(b":", out);
    let _ = text::put_pairs(&head, &mut out[1..]);
    put_summed(bytes, sum, &mut out[9..]);
}

// What stands behind a record's head: its data, its checksum and the line end.
fn put_summed(bytes: &[u8], sum: u8, out: &mut [u8])
    requires { (length bytes.now < 256) × (2 * length bytes.now + 3 ≤ length out.old) }
    ensures { out.new ≡ over ((pairs_of bytes.now ++ pairs_of (sum ∷ [])) ++ (10 ∷ [])) out.old }
{
    let end = 2 * bytes.len();
    let _ = text::put_pairs(bytes, out);
    let _ = text::put_pairs(&[sum], &mut out[end..]);
    let _ = octets::put(b"\n", &mut out[end + 2..]);
}

// What stands before a record's data: their count, the address, type 00.
fn head_of(count: u8, start: u16) -> [u8; 4]
    ensures { result ≡ count ∷ (big_bytes 2 start ++ (0 ∷ [])) }
{
    let [high, low] = start.to_be_bytes();
    [count, high, low, 0]
}

// What makes the sum of a record 0, whose head and rest have these sums.
fn complement_of(head: u8, rest: u8) -> u8
    ensures { result ≡ complement ((head + rest) % 256) }
{
    head.wrapping_add(rest).wrapping_neg()
}
