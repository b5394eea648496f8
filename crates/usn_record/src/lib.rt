// One USN record, version 2 or 3: the parsers, and the record that stands at an offset of an extract.
//
// Every function here is proved. No call has a `requires`: any slice gets an answer, a record or a refusal.
#![tactic(auto)]

pub mod bytes;
pub mod fields;
pub mod layout;
pub mod listed;
pub mod parse;
pub mod references;
pub mod words;
pub mod zeros;

ghost use Rattle.std.specs.Prelude.{◌≡◌};
ghost use Rattle.usn_record.specs.Layout.{v2, v3};
ghost use Rattle.base.specs.Outcome.{outcome};
ghost use Rattle.usn_record.specs.Record.{parsed, listed, as_listed};

use crate::bytes::{le_u16, le_u32};
use crate::layout::{MAJOR_VERSION, V2, V3};
use crate::parse::parse;
use base::Place;
use base::refusal::Refusal;

// Seconds and nanoseconds since 1970.
#[derive(Clone, Copy)]
pub struct Timestamp {
    pub seconds: u64,
    pub nanoseconds: u32,
}

// A parsed USN record of the journal.
#[derive(Clone, Copy)]
pub struct UsnRecord {
    // The file's or folder's MFT entry and sequence.
    pub mft_entry: u64,
    pub mft_sequence: u16,
    // Those of the folder it stands in.
    pub parent_mft_entry: u64,
    pub parent_mft_sequence: u16,
    // The update sequence number: the record's offset in the journal.
    pub usn: i64,
    pub timestamp: Timestamp,
    pub reason: u32,
    // Where the name's UTF-16 units lie in the slice that was parsed; 0, 0 where the name is empty.
    pub filename: Place,
    pub file_attributes: u32,
    pub source_info: u32,
    pub security_id: u32,
    // The version whose parser made the record, 2 or 3.
    pub major_version: u16,
    pub minor_version: u16,
    pub record_length: u32,
    // The time as stored: ticks of 100 nanoseconds since 1601.
    pub filetime: i64,
    // The upper 64 bits of a version 3 reference; 0 in version 2.
    pub file_reference_high: u64,
    pub parent_reference_high: u64,
}

// The version 2 record that data begins with. The version field is not read.
// Refused: 1 data is above the domain, 2 shorter than 60 bytes, 3 the length field is outside 60..65536, 4 it passes data.
pub fn parse_usn_record_v2(data: &[u8]) -> Result<UsnRecord, Refusal>
    ensures { outcome result ≡ parsed v2 «data».now }
{
    parse::<V2>(data)
}

// The version 3 record that data begins with. The version field is not read.
// Refused: 1 data is above the domain, 2 shorter than 76 bytes, 3 the length field is outside 76..65536.
pub fn parse_usn_record_v3(data: &[u8]) -> Result<UsnRecord, Refusal>
    ensures { outcome result ≡ parsed v3 «data».now }
{
    parse::<V3>(data)
}

// The record at an offset of an extract, taken by its offset alone: its parser is handed the part that begins there and is
// as long as its length field, from which the name's place counts.
// Refused: 12 fewer than 8 bytes are left, the length passes the end, the version is not 2 or 3, or the parser refuses.
#[inline(always)]
pub fn listed_record(extract: &[u8], offset: usize) -> Result<UsnRecord, Refusal>
    ensures { outcome result ≡ listed extract.now offset }
{
    let size = extract.len();
    if size < 8 {
        return Err(Refusal::NotARecord);
    }
    if size - 8 < offset {
        return Err(Refusal::NotARecord);
    }
    let length = le_u32(extract, offset) as usize;
    if size - offset < length {
        return Err(Refusal::NotARecord);
    }
    let end = offset + length;
    let version = le_u16(extract, offset + MAJOR_VERSION);
    match version {
        2 => not_a_record(parse::<V2>(&extract[offset..end])),
        3 => not_a_record(parse::<V3>(&extract[offset..end])),
        _ => Err(Refusal::NotARecord),
    }
}

// A parser's answer about a listed offset: every refusal is 12.
fn not_a_record(parsed: Result<UsnRecord, Refusal>) -> Result<UsnRecord, Refusal>
    ensures { outcome result ≡ as_listed (outcome parsed) }
{
    parsed.map_err(|_| Refusal::NotARecord)
}
