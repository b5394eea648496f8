// The test for a listed record, without its fields.
ghost use Rattle.std.specs.Prelude.{◌≡◌};
ghost use Rattle.usn_record.specs.Record.{listed, is_answered, fits_record};

use crate::bytes::{le_u16, le_u32};
use crate::layout::{MAJOR_VERSION, USN_MAX_RECORD_SIZE, USN_V2_MIN_SIZE, USN_V3_MIN_SIZE};

// Whether a record stands at an offset of an extract: whether `listed_record` accepts it. No field but its length and version
// is read, as its parser would be handed a part that is as long as its length.
pub fn is_listed(extract: &[u8], offset: usize) -> bool
    ensures { result ≡ is_answered (listed extract.now offset) }
{
    let size = extract.len();
    if size < 8 {
        return false;
    }
    if size - 8 < offset {
        return false;
    }
    let length = le_u32(extract, offset) as usize;
    if size - offset < length {
        return false;
    }
    let version = le_u16(extract, offset + MAJOR_VERSION);
    match version {
        2 => fits_record(USN_V2_MIN_SIZE, length),
        3 => fits_record(USN_V3_MIN_SIZE, length),
        _ => false,
    }
}

// Whether a record with this fixed part may have this length.
fn fits_record(fixed: usize, length: usize) -> bool
    ensures { result ≡ fits_record fixed length }
{
    fixed <= length && length <= USN_MAX_RECORD_SIZE
}
