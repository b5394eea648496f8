// The chain of a key in the lookup table: how many names its path has, where they lie, and what they hang under.
//
// The way goes from a key to its parent, until it comes to the root, to a key that the table does not have, or to a key that
// is too deep. The lent list takes three words a name, the top one first: source, offset, length. It is written where it has
// room for all names, and left alone otherwise; 771 words are always enough.
//
// Every function here is proved. The call has no `requires`: any table and key get an answer. Of journal and image only the
// lengths are used, so names decide nothing.
#![tactic(auto)]

pub mod steps;
pub mod tracing;
pub mod way;
pub mod words;

ghost use Rattle.chain.specs.Promise.{ChainPromise};

use crate::tracing::check;
use crate::way::list_chain;
use base::refusal::Refusal;
use entry_slots::EntryKey;

// How many parents up from the key that is asked for a path is followed.
pub const DEPTH: usize = 256;

// What the names of a path hang under: the root, a key that the table does not have, or the key at which the levels ran out.
#[derive(Clone, Copy)]
pub enum ChainEnd {
    Root,
    Unknown(EntryKey),
    Unresolved(EntryKey),
}

// How many names a path has, and its end.
#[derive(Clone, Copy)]
pub struct ResolvedPath {
    pub names: usize,
    pub end: ChainEnd,
}

// The path of a key without its text.
// Refused, with nothing written: 1 journal or image is above the domain, 9 used is above the slots, 7 the name's place of a
// used slot is outside its slice.
pub fn path_chain(
    journal: &[u8],
    image: &[u8],
    slots: &[u64],
    used: usize,
    key: EntryKey,
    list: &mut [u64],
) -> Result<ResolvedPath, Refusal>
    ensures { ChainPromise journal image slots used key list result }
{
    check(journal.len(), image.len(), slots, used)?;
    Ok(list_chain(slots, used, key, list))
}
