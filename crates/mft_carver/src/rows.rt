// A carved entry and the counters as words, a word a field.
ghost use Rattle.mft_carver.specs.Carve.{entry_words, stats_words};

use crate::{CarvedMftEntry, MftCarvingStats};
use base::words::Row;

impl Row<9> for CarvedMftEntry {
    ghost words = { entry_words };

    fn row(self) -> [u64; 9] {
        [
            self.offset as u64,
            self.entry_number,
            self.sequence_number as u64,
            self.filename.offset as u64,
            self.filename.length as u64,
            self.parent_entry,
            self.parent_sequence as u64,
            self.is_directory as u64,
            self.is_in_use as u64,
        ]
    }
}

// The words of the counters.
pub const STATS_WORDS: usize = 4;

impl Row<STATS_WORDS> for MftCarvingStats {
    ghost words = { stats_words };

    fn row(self) -> [u64; STATS_WORDS] {
        [
            self.bytes_scanned as u64,
            self.candidates_examined,
            self.entries_carved as u64,
            self.rejected,
        ]
    }
}
