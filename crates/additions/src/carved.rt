// What the entries of the image carver's flat list say: nine words an entry.
ghost use Rattle.std.specs.Prelude.{◌≡◌, ◌+◌, ◌*◌, ◌≤◌, length};
ghost use Rattle.additions.specs.Carved.{row, carved_key, carved_name, carved_info};

use entry_slots::slots::key_in;
use entry_slots::{EntryInfo, EntryKey, NamePlace};
use mft_carver::ENTRY_WORDS;

// The source of a name that lies in the image, as it is stored.
pub const IMAGE: u64 = 1;

// The key of carved entry i.
pub fn carved_key(entries: &[u64], i: usize) -> EntryKey
    requires { i * row + row ≤ length entries.now }
    ensures { result ≡ carved_key entries.now i }
{
    key_in(entries, i * ENTRY_WORDS + 1)
}

// Where its name lies.
fn carved_name(entries: &[u64], i: usize) -> NamePlace
    requires { i * row + row ≤ length entries.now }
    ensures { result ≡ carved_name entries.now i }
{
    let at = i * ENTRY_WORDS;
    NamePlace {
        source: IMAGE,
        offset: entries[at + 3],
        length: entries[at + 4],
    }
}

// What it says of its key.
pub fn carved_info(entries: &[u64], i: usize) -> EntryInfo
    requires { i * row + row ≤ length entries.now }
    ensures { result ≡ carved_info entries.now i }
{
    let parent = key_in(entries, i * ENTRY_WORDS + 5);
    let name = carved_name(entries, i);
    EntryInfo { parent, name }
}
