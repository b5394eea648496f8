// The state of a rewind as words.
ghost use Rattle.rewind.specs.Words.{rewind_words};

use crate::Rewind;
use base::words::Row;

// The words of a state.
pub const START_WORDS: usize = 2;

impl Row<START_WORDS> for Rewind {
    ghost words = { rewind_words };

    fn row(self) -> [u64; START_WORDS] {
        [self.used as u64, self.position as u64]
    }
}
