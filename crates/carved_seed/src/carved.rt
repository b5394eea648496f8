// The carved entries of a lent slice as a source of additions.
ghost use Rattle.std.specs.Prelude.{◌≡◌, length};
ghost use Rattle.additions.specs.Carved.{addition_of};
ghost use Rattle.carved_seed.specs.Entries.{added_at};

use additions::carved::IMAGE;
use additions::source::Source;
use entry_slots::{EntryInfo, EntryKey, NamePlace};
use mft_carver::CarvedMftEntry;

// The key of a carved entry. A From would be one for a type of another crate.
pub(crate) fn key_of(entry: CarvedMftEntry) -> EntryKey
    ensures { result ≡ (addition_of entry).key }
{
    EntryKey {
        entry: entry.entry_number,
        sequence: entry.sequence_number as u64,
    }
}

// What it says of its key, by a function for the same reason.
pub(crate) fn info_of(entry: CarvedMftEntry) -> EntryInfo
    ensures { result ≡ (addition_of entry).info }
{
    EntryInfo {
        parent: EntryKey {
            entry: entry.parent_entry,
            sequence: entry.parent_sequence as u64,
        },
        name: NamePlace {
            source: IMAGE,
            offset: entry.filename.offset as u64,
            length: entry.filename.length as u64,
        },
    }
}

// Carved entries, as the image carver's own struct has them.
#[derive(Clone, Copy)]
pub(crate) struct CarvedEntries<'a> {
    pub(crate) entries: &'a [CarvedMftEntry],
}

impl<'a> Source for CarvedEntries<'a> {
    ghost many = { λ s. length s.entries.now };

    ghost added = { λ s. added_at s.entries.now };

    fn count(self) -> usize {
        self.entries.len()
    }

    fn key(self, i: usize) -> EntryKey {
        key_of(self.entries[i])
    }

    fn info(self, i: usize) -> EntryInfo {
        info_of(self.entries[i])
    }

    fn replaces(self, _i: usize) -> bool {
        false
    }
}
