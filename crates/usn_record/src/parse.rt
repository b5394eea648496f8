// The parser of both versions.
ghost use Rattle.std.specs.Prelude.{◌≡◌};
ghost use Rattle.base.specs.Outcome.{outcome};
ghost use Rattle.usn_record.specs.Record.{parsed};

use crate::UsnRecord;
use crate::bytes::{le_u16, le_u32, le_u64};
use crate::fields::{filename_place, filetime_to_timestamp, read_reference, signed};
use crate::layout::{
    FILE_ATTRIBUTES, FILE_REFERENCE, MINOR_VERSION, NAME_LENGTH, NAME_OFFSET, REASON, SECURITY_ID,
    SHARED, SOURCE_INFO, TIME, USN_MAX_RECORD_SIZE, Version,
};
use base::DOMAIN;
use base::refusal::Refusal;

// The record of version V that data begins with.
pub fn parse<V: Version>(data: &[u8]) -> Result<UsnRecord, Refusal>
    ensures { outcome result ≡ parsed V.layout «data».now }
{
    let size = data.len();
    if DOMAIN < size {
        return Err(Refusal::AboveDomain);
    }
    let tail = V::USN;
    let fixed = tail + SHARED;
    if size < fixed {
        return Err(Refusal::ShortSlice);
    }
    let record_length = le_u32(data, 0);
    let length = record_length as usize;
    if length < fixed {
        return Err(Refusal::BadLength);
    }
    if USN_MAX_RECORD_SIZE < length {
        return Err(Refusal::BadLength);
    }
    if V::LENGTH_IN_SLICE && size < length {
        return Err(Refusal::LengthPastSlice);
    }
    let file = read_reference::<V>(data, FILE_REFERENCE);
    let above = read_reference::<V>(data, V::PARENT_REFERENCE);
    let time = le_u64(data, tail + TIME);
    Ok(UsnRecord {
        mft_entry: file.entry,
        mft_sequence: file.sequence,
        parent_mft_entry: above.entry,
        parent_mft_sequence: above.sequence,
        usn: signed(le_u64(data, tail)),
        timestamp: filetime_to_timestamp(time),
        reason: le_u32(data, tail + REASON),
        filename: filename_place(
            size,
            le_u16(data, tail + NAME_OFFSET),
            le_u16(data, tail + NAME_LENGTH),
        ),
        file_attributes: le_u32(data, tail + FILE_ATTRIBUTES),
        source_info: le_u32(data, tail + SOURCE_INFO),
        security_id: le_u32(data, tail + SECURITY_ID),
        major_version: V::MAJOR,
        minor_version: le_u16(data, MINOR_VERSION),
        record_length,
        filetime: signed(time),
        file_reference_high: file.high,
        parent_reference_high: above.high,
    })
}
