// What a run counted as a row of words, which goes out of a C function.
ghost use Rattle.usn_carver.specs.Events.{stats_words};

use crate::CarvingStats;
use base::words::Row;

// The words of a run's counters.
pub const STATS_WORDS: usize = 5;

// The counters, a word each.
impl Row<STATS_WORDS> for CarvingStats {
    ghost words = { stats_words };

    fn row(self) -> [u64; STATS_WORDS] {
        [
            self.bytes_scanned as u64,
            self.candidates_examined,
            self.records_carved as u64,
            self.rejected_timestamp,
            self.rejected_structure,
        ]
    }
}
