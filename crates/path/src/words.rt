// A path with text as words: its names and end, and the length of its text.
ghost use Rattle.path.specs.Words.{written_words};

use crate::WrittenPath;
use base::words::Row;
use chain::words::CHAIN_WORDS;

// The words of a path with text.
pub const PATH_WORDS: usize = 5;

impl Row<PATH_WORDS> for WrittenPath {
    ghost words = { written_words };

    fn row(self) -> [u64; PATH_WORDS] {
        let path: [u64; CHAIN_WORDS] = self.path.row();
        let [names, kind, entry, sequence] = path;
        [names, kind, entry, sequence, self.text as u64]
    }
}
