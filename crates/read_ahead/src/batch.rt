// A batch of records: the slots of their keys, and those of the folders above them with the names there, a level at a time.
//
// A way leads from a record up the table. A pass goes over all ways of a batch, so that what it reads for one does not wait for what it
// reads for another; ways side by side that come to the same key are one from there on, and one that leads to no slot ends. The answers
// are sums of a byte for each read: they decide nothing, and the compiler, which does not know that, leaves no read out.
ghost use Rattle.std.specs.Prelude.{◌+◌, ◌*◌, ◌/◌, ◌^◌, ◌≤◌, ◌<◌, length, IfSome};
ghost use Rattle.entry_slots.specs.Slots.{stride};
ghost use Rattle.read_ahead.specs.Reading.{batch};

use entry_slots::links::hash_of;
use entry_slots::names::JOURNAL;
use entry_slots::slots::{STRIDE, info_at, key_at};
use entry_slots::{EntryKey, NamePlace};
use usn_record::bytes::byte_at;
use usn_record::fields::Reference;
use usn_record::references::{References, references_at};

// The records of a batch.
pub(crate) const BATCH: usize = 32;

// A way: the key that it has come to, and a link that leads to the key's slot.
#[derive(Clone, Copy)]
struct Way {
    key: EntryKey,
    link: u64,
}

// A batch of ways, none of which leads anywhere yet.
fn no_ways() -> [Way; BATCH] {
    let nowhere = Way {
        key: EntryKey {
            entry: 0,
            sequence: 0,
        },
        link: 0,
    };
    [nowhere; BATCH]
}

// How many ways lead on, and the sum of the bytes that were read for all of them.
#[derive(Clone, Copy)]
struct Gone {
    on: usize,
    sum: usize,
}

// The key that a reference is. A From would be one for a type of another crate.
fn reference_key(reference: Reference) -> EntryKey {
    EntryKey {
        entry: reference.entry,
        sequence: reference.sequence as u64,
    }
}

// The first link of a key.
fn link_of(heads: &[u64], key: EntryKey) -> u64
    requires { 0 < length heads.now }
{
    heads[hash_of(heads.len(), key)]
}

// Whether the last of so many ways has this key.
fn is_last(ways: &[Way; BATCH], on: usize, key: EntryKey) -> bool
    requires { on ≤ batch }
{
    if on == 0 {
        return false;
    }
    ways[on - 1].key == key
}

// Sets out with a key behind so many ways, unless the last of them has it; how many ways there are then.
fn set_out(heads: &[u64], ways: &mut [Way; BATCH], on: usize, key: EntryKey) -> usize
    requires { (0 < length heads.now) × (on < batch) }
    ensures { result ≤ on + 1 }
{
    if is_last(ways, on, key) {
        return on;
    }
    ways[on] = Way {
        key,
        link: link_of(heads, key),
    };
    on + 1
}

// The slot that a link leads to, which is one less; a link 0 leads to none.
fn reach(slots: &[u64], link: u64) -> Option<usize>
    ensures { IfSome result (λ slot. slot * stride + stride ≤ length slots.now) }
{
    let n = link as usize;
    if n == 0 {
        return None;
    }
    if slots.len() / STRIDE < n {
        return None;
    }
    Some(n - 1)
}

// A link, or the next one where its slot has another key.
fn followed(slots: &[u64], nexts: &[u64], way: Way) -> u64 {
    let Some(slot) = reach(slots, way.link) else {
        return 0;
    };
    if key_at(slots, slot) == way.key {
        return way.link;
    }
    if nexts.len() <= slot {
        return 0;
    }
    nexts[slot]
}

// The first byte of the name in a slot.
fn first_of(journal: &[u8], image: &[u8], name: NamePlace) -> u8 {
    if name.source == JOURNAL {
        return byte_at(journal, name.offset as usize);
    }
    byte_at(image, name.offset as usize)
}

// Sets out from each record of a batch with one of its references; how many ways there are then.
fn set_out_all<F: Fn(References) -> Reference>(
    journal: &[u8],
    records: &[usize],
    heads: &[u64],
    which: F,
    ways: &mut [Way; BATCH],
) -> usize
    requires callable { F.IsAlwaysCallable which }
    requires within { (0 < length heads.now) × (length records.now / 2 ≤ batch) }
    ensures { result ≤ batch }
{
    let mut on: usize = 0;
    for x in 0..records.len() / 2 {
        let reference = which(references_at(journal, records[x * 2]));
        on = set_out(heads, ways, on, reference_key(reference));
    }
    on
}

// Follows the links of so many ways; the sum of the low bytes of where they then lead.
fn follow_all(slots: &[u64], nexts: &[u64], count: usize, ways: &mut [Way; BATCH]) -> usize
    requires { count ≤ batch }
    ensures { result ≤ 8160 }
{
    let mut sum: usize = 0;
    for x in 0..count {
        let next = followed(slots, nexts, ways[x]);
        ways[x].link = next;
        sum += (next % 256) as usize;
    }
    sum
}

// Rises from the slots of so many ways to their parents, unless it is for the last time, and reads the first byte of the name in each
// slot. A way that leads to no slot ends. The last time is told by a flag: a closure for what follows would be lent the ways that the loop
// goes over.
fn rise_all(
    journal: &[u8],
    image: &[u8],
    slots: &[u64],
    heads: &[u64],
    count: usize,
    ways: &mut [Way; BATCH],
    last: bool,
) -> Gone
    requires { (0 < length heads.now) × (count ≤ batch) }
    ensures { (result.on ≤ batch) × (result.sum ≤ 8160) }
{
    let mut on: usize = 0;
    let mut sum: usize = 0;
    for x in 0..count {
        if let Some(slot) = reach(slots, ways[x].link) {
            let info = info_at(slots, slot);
            sum += first_of(journal, image, info.name) as usize;
            if !last {
                on = set_out(heads, ways, on, info.parent);
            }
        }
    }
    Gone { on, sum }
}

// Reads ahead for a batch of records: the slots of their own keys, and those of so many folders above them, with the names there. The
// sum of the bytes.
pub(crate) fn read_batch(
    journal: &[u8],
    image: &[u8],
    records: &[usize],
    slots: &[u64],
    heads: &[u64],
    nexts: &[u64],
    levels: usize,
) -> usize
    requires { (0 < length heads.now) × (length records.now / 2 ≤ batch) × (levels ≤ 4) }
    ensures { result < 2 ^ 20 }
{
    let mut ways = no_ways();
    let files = set_out_all(journal, records, heads, |of| of.file, &mut ways);
    let mut sum = follow_all(slots, nexts, files, &mut ways);
    if levels == 0 {
        return sum;
    }
    let mut on = set_out_all(journal, records, heads, |of| of.parent, &mut ways);
    for level in 1..=levels {
        sum += follow_all(slots, nexts, on, &mut ways);
        let gone = rise_all(journal, image, slots, heads, on, &mut ways, level == levels);
        on = gone.on;
        sum += gone.sum;
    }
    sum
}
