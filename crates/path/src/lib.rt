// Paths from the lookup table as text.
//
// A path's text is its end, the root `.`, `UNKNOWN(e:s)` or `UNRESOLVED(e:s)`, and then `\` and a name for each key on the way
// down to the one that is asked for.
//
// Every function here is proved. The call has no `requires`: any table and key get an answer. Of journal and image the
// lengths decide all but the text and whether it fits.
#![tactic(auto)]

pub mod ways;
pub mod words;

ghost use Rattle.path.specs.Promise.{PathPromise};

use crate::ways::put_path;
use base::refusal::Refusal;
use chain::ResolvedPath;
use chain::tracing::check;
use chain::way::{WAY_WORDS, climb, list_places, resolved};
use entry_slots::EntryKey;

// What is told of a path that is written: its names and its end, and how many bytes its text takes.
#[derive(Clone, Copy)]
pub struct WrittenPath {
    pub path: ResolvedPath,
    pub text: usize,
}

// The path of a key: its places in the lent list, as path_chain leaves them, and its text at the front of the lent text.
// Refused, with nothing written: 1 journal or image is above the domain, 9 used is above the slots, 7 the name's place of a
// used slot is outside its slice, 8 the text is too small.
pub fn path(
    journal: &[u8],
    image: &[u8],
    slots: &[u64],
    used: usize,
    key: EntryKey,
    list: &mut [u64],
    text: &mut [u8],
) -> Result<WrittenPath, Refusal>
    ensures { PathPromise journal image slots used key list text result }
{
    check(journal.len(), image.len(), slots, used)?;
    let mut way: [usize; WAY_WORDS] = [0; WAY_WORDS];
    let up = climb(slots, used, &[], &[], key, &mut way);
    let Some(length) = put_path(journal, image, slots, &way, up, text) else {
        return Err(Refusal::TextFull);
    };
    list_places(slots, &way, up.names, list);
    let path = resolved(up);
    Ok(WrittenPath { path, text: length })
}
