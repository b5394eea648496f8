// A path's names and end as words.
ghost use Rattle.std.specs.Prelude.{◌≡◌};
ghost use Rattle.chain.specs.Words.{end_words, resolved_words};

use crate::{ChainEnd, ResolvedPath};
use base::words::Row;

// The words of a path.
pub const CHAIN_WORDS: usize = 4;

// What a chain ends in: 0 the root, 1 an unknown key, 2 an unresolved one, and the key, which the root lacks. The numbers are those that
// C reads.
fn end_row(end: ChainEnd) -> [u64; 3]
    ensures { result ≡ end_words end }
{
    match end {
        ChainEnd::Root => [0, 0, 0],
        ChainEnd::Unknown(key) => [1, key.entry, key.sequence],
        ChainEnd::Unresolved(key) => [2, key.entry, key.sequence],
    }
}

impl Row<CHAIN_WORDS> for ResolvedPath {
    ghost words = { resolved_words };

    fn row(self) -> [u64; CHAIN_WORDS] {
        let [kind, entry, sequence] = end_row(self.end);
        [self.names as u64, kind, entry, sequence]
    }
}
