// What the listed records of a journal say of entries: key, parent, name and the reasons of the change.
ghost use Rattle.std.specs.Prelude.{◌≡◌, ◌+◌, ◌^◌, ◌<◌};
ghost use Rattle.base.specs.Places.{place_from};
ghost use Rattle.additions.specs.Entries.{has_reason, from_journal, entry_at, entry_or, backward, forward};
ghost use Rattle.additions.specs.Walking.{records_in, last_entry};

use base::Place;
use entry_slots::names::JOURNAL;
use entry_slots::{EntryInfo, EntryKey, NamePlace};
use usn_record::listed_record;

// The reasons that decide what becomes of a record.
const FILE_CREATE: u32 = 0x100;

const RENAME_OLD_NAME: u32 = 0x1000;

const RENAME_NEW_NAME: u32 = 0x2000;

// What a record says: the key of its file, the folder it stands in and its name, and the reasons of the change.
#[derive(Clone, Copy, Default)]
pub struct RecordEntry {
    pub key: EntryKey,
    pub info: EntryInfo,
    pub reason: u32,
}

// Whether the reasons of a record have this one.
fn has_reason(reasons: u32, bit: u32) -> bool
    requires { 0 < bit }
    ensures { result ≡ has_reason bit reasons }
{
    reasons / bit % 2 == 1
}

// Whether a record replaces what is known of its key, going backward: it has the old name of a rename.
pub fn replaces_backward(entry: RecordEntry) -> bool
    ensures { result ≡ (backward entry).replace }
{
    has_reason(entry.reason, RENAME_OLD_NAME)
}

// The same going forward: it has a new name, or its file was created.
pub fn replaces_forward(entry: RecordEntry) -> bool
    ensures { result ≡ (forward entry).replace }
{
    if has_reason(entry.reason, RENAME_NEW_NAME) {
        return true;
    }
    has_reason(entry.reason, FILE_CREATE)
}

// Where a name lies in the journal, of a record at an offset. An empty name stays at 0, 0.
fn name_from(offset: usize, name: Place) -> NamePlace
    requires { offset + name.offset < 2 ^ 64 }
    ensures { result ≡ from_journal (place_from offset name) }
{
    if name.length == 0 {
        return NamePlace::default();
    }
    NamePlace {
        source: JOURNAL,
        offset: (offset + name.offset) as u64,
        length: name.length as u64,
    }
}

// What the record at an offset says; zeros where none stands there.
pub fn entry_at(journal: &[u8], offset: usize) -> RecordEntry
    ensures { result ≡ entry_or (entry_at journal.now offset) }
{
    let Ok(record) = listed_record(journal, offset) else {
        return RecordEntry::default();
    };
    RecordEntry {
        key: EntryKey {
            entry: record.mft_entry,
            sequence: record.mft_sequence as u64,
        },
        info: EntryInfo {
            parent: EntryKey {
                entry: record.parent_mft_entry,
                sequence: record.parent_mft_sequence as u64,
            },
            name: name_from(offset, record.filename),
        },
        reason: record.reason,
    }
}

// What the record says that is so far from the last one.
pub fn entry_from_last(journal: &[u8], records: &[usize], i: usize) -> RecordEntry
    requires { i < records_in records.now }
    ensures { result ≡ last_entry journal.now records.now i }
{
    entry_at(journal, records[(records.len() / 2 - 1 - i) * 2])
}
