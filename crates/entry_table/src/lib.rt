// The calls that store entries in the lookup table of `entry_slots`.
//
// Seeding may be lent words for an index of the table, whatever they hold: heads and nexts. It builds the index after its tests
// and keeps it with every addition, so that it does not pass over the used slots for each key. Where the words are too few, it
// does without, and answers and stores the same. A call with no index is the same code with heads and nexts of length 0.
//
// Every function here is proved. No public call has a `requires`: any table and any entry get an answer. Of journal and image
// only the lengths are used, so names decide nothing. The functions of the modules are helpers of our own crates; those of `adding`
// ask for room and for an index that is the table's.
#![tactic(auto)]

pub mod adding;
mod seeding;

ghost use Rattle.std.specs.Prelude.{true, false};
ghost use Rattle.entry_slots.specs.Names.{lengths};
ghost use Rattle.entry_table.specs.Promise.{StorePromise, InsertPromise, SeedPromise, SeedIndexedPromise};

use crate::adding::add;
use crate::seeding::seed_by;
use additions::source::CarvedWords;
use base::refusal::Refusal;
use entry_slots::links::is_enough;
use entry_slots::names::is_inside;
use entry_slots::slots::STRIDE;
use entry_slots::{EntryInfo, EntryKey};

// Each call that stores answers the number of used slots, or why it is refused. Those that differ by a flag or by an index are the
// calls that README and C name, each one call of one function.

// Stores an entry under its key. A known one is replaced, in the slot where it stands.
// Refused, with nothing written: 9 used is above the slots, 7 the name's place passes its slice, 6 the key is new and no slot
// is left.
pub fn insert(
    journal: &[u8],
    image: &[u8],
    slots: &mut [u64],
    used: usize,
    key: EntryKey,
    info: EntryInfo,
) -> Result<usize, Refusal>
    ensures { InsertPromise journal image slots used key info true result }
{
    store(journal.len(), image.len(), slots, used, key, info, true)
}

// Stores an entry under its key where the key is new. A known one is left alone.
// Refused as insert is.
pub fn insert_if_absent(
    journal: &[u8],
    image: &[u8],
    slots: &mut [u64],
    used: usize,
    key: EntryKey,
    info: EntryInfo,
) -> Result<usize, Refusal>
    ensures { InsertPromise journal image slots used key info false result }
{
    store(journal.len(), image.len(), slots, used, key, info, false)
}

// Stores the carved entries of an image, in turn, each where its key is new. They come as the image carver lists them, nine
// words an entry: offset, entry, sequence, name offset, name length, parent entry, parent sequence, directory, in use. Words
// after the last whole entry are ignored.
// Refused, with nothing written: 9 used is above the slots, 7 a listed name's place passes the image, also of a known entry,
// 6 the different new keys are more than the slots that are left.
pub fn seed(
    journal: &[u8],
    image: &[u8],
    slots: &mut [u64],
    used: usize,
    entries: &[u64],
) -> Result<usize, Refusal>
    ensures { SeedPromise journal image slots used entries result }
{
    seed_indexed(journal, image, slots, used, entries, &mut [], &mut [])
}

// What `seed` does, by way of an index.
pub fn seed_indexed(
    journal: &[u8],
    image: &[u8],
    slots: &mut [u64],
    used: usize,
    entries: &[u64],
    heads: &mut [u64],
    nexts: &mut [u64],
) -> Result<usize, Refusal>
    ensures { SeedIndexedPromise journal image slots used entries heads nexts result }
{
    let words = CarvedWords { words: entries };
    if is_enough(slots.len() / STRIDE, heads, nexts) {
        return seed_by(journal.len(), image.len(), slots, used, words, heads, nexts);
    }
    seed_by(
        journal.len(),
        image.len(),
        slots,
        used,
        words,
        &mut heads[..0],
        nexts,
    )
}

// One entry, with journal and image by their lengths.
fn store(
    journal_length: usize,
    image_length: usize,
    slots: &mut [u64],
    used: usize,
    key: EntryKey,
    info: EntryInfo,
    replace: bool,
) -> Result<usize, Refusal>
    ensures { StorePromise (lengths journal_length image_length) slots used key info replace result }
{
    if slots.len() / STRIDE < used {
        return Err(Refusal::BadState);
    }
    if !is_inside(info.name, journal_length, image_length) {
        return Err(Refusal::NameOutside);
    }
    add(slots, used, key, info, replace)
}
