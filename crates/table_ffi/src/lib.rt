// The lookup table as C functions, for Rust or C to link: a slice is a pointer and a length, and an answer goes out as a number, 0 or
// a refusal's, with its words in a lent list.
//
//     table_insert, table_insert_if_absent
//                          an entry under its key
//     table_seed, table_seed_indexed
//                          all carved entries
//
// Every function here is proved, and none has a `requires`. A refused call writes nothing. One that answers writes of its list the words
// of its answer alone: those past them stay as they were. Too few words for the answer are refused with 5 before everything else. What
// lies in the words for an index, specs/Promise.antt says.
#![tactic(auto)]

ghost use Rattle.std.specs.Prelude.{◌≡◌, true, false};
ghost use Rattle.volume_answers.specs.Key.{key_of};
ghost use Rattle.table_ffi.specs.Promise.{StorePromise, SeedCallPromise, SeedIndexedCallPromise};
ghost use Rattle.table_ffi.specs.Table.{info_of};

use base::refusal::Refusal;
use base::words::put_answer;
use entry_slots::{EntryInfo, EntryKey, NamePlace};

// The words of what storing answers.
const USED_WORDS: usize = 1;

// An entry under its key into a table of seven words a slot, of which used are used, in place of a known one: its parent, and its
// name's source (0 the journal, any other the image), offset and length in bytes. A word of out: the used slots after it.
// Answers 0, or refuses: 5 out has no word, 9 used is above the slots, 7 the name's place passes its slice, 6 the key is new and
// no slot is left.
#[unsafe(no_mangle)]
pub extern "C" fn table_insert(
    journal: &[u8],
    image: &[u8],
    slots: &mut [u64],
    used: usize,
    entry: u64,
    sequence: u64,
    parent_entry: u64,
    parent_sequence: u64,
    source: u64,
    offset: u64,
    length: u64,
    out: &mut [u64],
) -> u32
    ensures { StorePromise journal image slots used (key_of entry sequence) (info_of parent_entry parent_sequence source offset length) true out result }
{
    if out.len() < USED_WORDS {
        return Refusal::ListFull.number();
    }
    put_answer(
        entry_table::insert(
            journal,
            image,
            slots,
            used,
            EntryKey { entry, sequence },
            entry_info(parent_entry, parent_sequence, source, offset, length),
        ),
        out,
    )
}

// The same where the key is new; a known entry is left alone.
#[unsafe(no_mangle)]
pub extern "C" fn table_insert_if_absent(
    journal: &[u8],
    image: &[u8],
    slots: &mut [u64],
    used: usize,
    entry: u64,
    sequence: u64,
    parent_entry: u64,
    parent_sequence: u64,
    source: u64,
    offset: u64,
    length: u64,
    out: &mut [u64],
) -> u32
    ensures { StorePromise journal image slots used (key_of entry sequence) (info_of parent_entry parent_sequence source offset length) false out result }
{
    if out.len() < USED_WORDS {
        return Refusal::ListFull.number();
    }
    put_answer(
        entry_table::insert_if_absent(
            journal,
            image,
            slots,
            used,
            EntryKey { entry, sequence },
            entry_info(parent_entry, parent_sequence, source, offset, length),
        ),
        out,
    )
}

// The carved entries, nine words each as mft_carve_entries lists them, each where its key is new. A word of out: the used slots
// after it.
// Answers 0, or refuses: 5 out has no word, 9 used is above the slots, 7 a listed name's place passes the image, 6 the different
// new keys are more than the slots that are left.
#[unsafe(no_mangle)]
pub extern "C" fn table_seed(
    journal: &[u8],
    image: &[u8],
    slots: &mut [u64],
    used: usize,
    entries: &[u64],
    out: &mut [u64],
) -> u32
    ensures { SeedCallPromise journal image slots used entries out result }
{
    if out.len() < USED_WORDS {
        return Refusal::ListFull.number();
    }
    put_answer(entry_table::seed(journal, image, slots, used, entries), out)
}

// What table_seed does, by way of an index in the words of heads and nexts, whatever they hold.
// Answers 0, or refuses as table_seed does.
#[unsafe(no_mangle)]
pub extern "C" fn table_seed_indexed(
    journal: &[u8],
    image: &[u8],
    slots: &mut [u64],
    used: usize,
    entries: &[u64],
    heads: &mut [u64],
    nexts: &mut [u64],
    out: &mut [u64],
) -> u32
    ensures { SeedIndexedCallPromise journal image slots used entries heads nexts out result }
{
    if out.len() < USED_WORDS {
        return Refusal::ListFull.number();
    }
    put_answer(
        entry_table::seed_indexed(journal, image, slots, used, entries, heads, nexts),
        out,
    )
}

// What is known of a key, from the numbers that C has of it: five of them, so that no From would do.
fn entry_info(
    parent_entry: u64,
    parent_sequence: u64,
    source: u64,
    offset: u64,
    length: u64,
) -> EntryInfo
    ensures { result ≡ info_of parent_entry parent_sequence source offset length }
{
    EntryInfo {
        parent: EntryKey {
            entry: parent_entry,
            sequence: parent_sequence,
        },
        name: NamePlace {
            source,
            offset,
            length,
        },
    }
}
