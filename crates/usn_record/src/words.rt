// A record as a row of words, which goes out of a C function.
ghost use Rattle.usn_record.specs.Record.{record_words};

use crate::UsnRecord;
use base::words::Row;

// The words of a record.
pub const RECORD_WORDS: usize = 19;

// The record's fields, a word each.
impl Row<RECORD_WORDS> for UsnRecord {
    ghost words = { record_words };

    fn row(self) -> [u64; RECORD_WORDS] {
        [
            self.mft_entry,
            self.mft_sequence as u64,
            self.parent_mft_entry,
            self.parent_mft_sequence as u64,
            self.usn.cast_unsigned(),
            self.timestamp.seconds,
            self.timestamp.nanoseconds as u64,
            self.reason as u64,
            self.file_attributes as u64,
            self.source_info as u64,
            self.security_id as u64,
            self.major_version as u64,
            self.filename.offset as u64,
            self.filename.length as u64,
            self.record_length as u64,
            self.minor_version as u64,
            self.filetime.cast_unsigned(),
            self.file_reference_high,
            self.parent_reference_high,
        ]
    }
}
