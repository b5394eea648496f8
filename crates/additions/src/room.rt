// Whether a table has room for all that a call adds, and whether all their names lie inside their slices.
ghost use Rattle.std.specs.Prelude.{◌≡◌, ◌*◌, ◌≤◌, length};
ghost use Rattle.entry_slots.specs.Names.{lengths, all_inside};
ghost use Rattle.entry_slots.specs.Slots.{stride};
ghost use Rattle.entry_slots.specs.Table.{table};
ghost use Rattle.additions.specs.Storing.{names_of, seen, new_in, fits};
ghost use Rattle.additions.specs.Walking.{walked_back};
ghost use Rattle.additions.specs.Sources.{all_of, keys_by};

use crate::source::{RecordsBack, Source};
use entry_slots::EntryKey;
use entry_slots::names::is_inside;
use entry_slots::slots::find;

// Whether the name of every entry ends inside its slice.
pub fn names_inside<S: Source>(source: S, journal_length: usize, image_length: usize) -> bool
    ensures { result ≡ all_inside (lengths journal_length image_length) (names_of (all_of (S.many source) (S.added source))) }
{
    for i in 0..source.count() {
        if !is_inside(source.info(i).name, journal_length, image_length) {
            return false;
        }
    }
    true
}

// Whether so many slots are enough for those that are used and the new keys of a journal's listed records.
pub fn records_fit(
    journal: &[u8],
    records: &[usize],
    slots: &[u64],
    used: usize,
    room: usize,
) -> bool
    requires { used * stride ≤ length slots.now }
    ensures { result ≡ fits (table slots.now used) (walked_back journal.now records.now) room }
{
    has_room(RecordsBack { journal, records }, slots, used, room)
}

// Whether they are enough for the new keys of a source. None is counted where they are enough for all of its entries.
pub fn has_room<S: Source>(source: S, slots: &[u64], used: usize, room: usize) -> bool
    requires { used * stride ≤ length slots.now }
    ensures { result ≡ fits (table slots.now used) (all_of (S.many source) (S.added source)) room }
{
    if room < used {
        return false;
    }
    if source.count() <= room - used {
        return true;
    }
    new_keys(source, slots, used) <= room - used
}

// How many different keys are new to the table.
fn new_keys<S: Source>(source: S, slots: &[u64], used: usize) -> usize
    requires { used * stride ≤ length slots.now }
    ensures { result ≡ new_in (table slots.now used) (all_of (S.many source) (S.added source)) }
{
    let mut n: usize = 0;
    for i in 0..source.count() {
        if !is_seen(source, slots, used, i, source.key(i)) {
            n += 1;
        }
    }
    n
}

// Whether a key is in the table or among the first i.
fn is_seen<S: Source>(source: S, slots: &[u64], used: usize, i: usize, key: EntryKey) -> bool
    requires { (used * stride ≤ length slots.now) × (i ≤ S.many source) }
    ensures { result ≡ seen (table slots.now used) (keys_by (S.added source)) i key }
{
    if find(slots, used, key).is_some() {
        return true;
    }
    for j in 0..i {
        if source.key(j) == key {
            return true;
        }
    }
    false
}
