// The slots of a table: what stands in one, the slot of a key, and an entry put into one.
ghost use Rattle.std.specs.Prelude.{◌≡◌, ◌+◌, ◌*◌, ◌≤◌, length};
ghost use Rattle.entry_slots.specs.Slots.{stride, key_in, key_at, slot_name, info_at, put_at};
ghost use Rattle.entry_slots.specs.Table.{table, find};

use crate::{EntryInfo, EntryKey, NamePlace};

// The words of a slot.
pub const STRIDE: usize = 7;

// The key that stands from word p on.
pub fn key_in(words: &[u64], p: usize) -> EntryKey
    requires { p + 2 ≤ length words.now }
    ensures { result ≡ key_in words.now p }
{
    EntryKey {
        entry: words[p],
        sequence: words[p + 1],
    }
}

// The key in slot i.
pub fn key_at(slots: &[u64], i: usize) -> EntryKey
    requires { i * stride + stride ≤ length slots.now }
    ensures { result ≡ key_at slots.now i }
{
    key_in(slots, i * STRIDE)
}

// Where the name of slot i lies.
pub(crate) fn name_at(slots: &[u64], i: usize) -> NamePlace
    requires { i * stride + stride ≤ length slots.now }
    ensures { result ≡ slot_name slots.now i }
{
    let p = i * STRIDE + 4;
    NamePlace {
        source: slots[p],
        offset: slots[p + 1],
        length: slots[p + 2],
    }
}

// What slot i says of its key.
pub fn info_at(slots: &[u64], i: usize) -> EntryInfo
    requires { i * stride + stride ≤ length slots.now }
    ensures { result ≡ info_at slots.now i }
{
    let parent = key_in(slots, i * STRIDE + 2);
    let name = name_at(slots, i);
    EntryInfo { parent, name }
}

// The slot of a key: the lowest used one that has it, by passing over the used slots.
pub fn find(slots: &[u64], used: usize, key: EntryKey) -> Option<usize>
    requires { used * stride ≤ length slots.now }
    ensures { result ≡ find (table slots.now used) key }
{
    for i in 0..used {
        if key_at(slots, i) == key {
            return Some(i);
        }
    }
    None
}

// An entry into slot i.
pub fn put(slots: &mut [u64], i: usize, key: EntryKey, info: EntryInfo)
    requires { i * stride + stride ≤ length slots.old }
    ensures { slots.new ≡ put_at slots.old i key info }
{
    let parent = info.parent;
    let name = info.name;
    let words = [
        key.entry,
        key.sequence,
        parent.entry,
        parent.sequence,
        name.source,
        name.offset,
        name.length,
    ];
    base::put(slots, i * STRIDE, &words);
}
