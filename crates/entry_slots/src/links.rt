// The links of an index: how it is built, how a key is found by it, and how a new slot is linked.
//
// Heads of length 0 are no index: a key is then found by passing over the used slots.
ghost use Rattle.std.specs.Prelude.{◌≡◌, ◌+◌, ◌*◌, ◌≤◌, ◌<◌, length};
ghost use Rattle.entry_slots.specs.Slots.{stride};
ghost use Rattle.entry_slots.specs.Table.{table, find};
ghost use Rattle.entry_slots.specs.Index.{hash, heads_of, nexts_of, Indexed, enough};
ghost use Rattle.entry_slots.specs.Probing.{Probed, slot_by, heads_linked, nexts_linked};

use crate::EntryKey;
use crate::slots::key_at;

// What a walk along the links of a key's hash comes to: the slot that has the key, or the last link, 0 where there is none.
// Both are answers, and neither is an error.
#[derive(Clone, Copy)]
pub enum Probe {
    Hit(usize),
    Last(u64),
}

// Whether lent words are enough for the index of so many slots.
pub fn is_enough(slots: usize, heads: &[u64], nexts: &[u64]) -> bool
    ensures { result ≡ enough slots heads.now nexts.now }
{
    if heads.len() == 0 {
        return false;
    }
    slots <= nexts.len()
}

// The hash of a key, below m.
pub fn hash_of(m: usize, key: EntryKey) -> usize
    requires { 0 < m }
    ensures { result ≡ hash m key }
{
    let mixed = key.entry % 4294967296 + key.sequence % 65536 * 2654435761;
    mixed as usize % m
}

// The walk along the links of a key's hash: it goes by the links, and counts nothing.
fn probe_key(slots: &[u64], used: usize, heads: &[u64], nexts: &[u64], key: EntryKey) -> Probe
    requires stride_in_bounds { (used * stride ≤ length slots.now) × (0 < length heads.now) × (used ≤ length nexts.now) }
    requires indexed { Indexed (table slots.now used) heads.now nexts.now }
    ensures { Probed (length heads.now) (table slots.now used) key result }
{
    let mut link = heads[hash_of(heads.len(), key)];
    let mut last: u64 = 0;
    while 0 < link {
        let i = (link - 1) as usize;
        if key_at(slots, i) == key {
            return Probe::Hit(i);
        }
        last = link;
        link = nexts[i];
    }
    Probe::Last(last)
}

// Where a key stands by the links of its hash, or with no heads by passing over the used slots.
pub fn seek(slots: &[u64], used: usize, heads: &[u64], nexts: &[u64], key: EntryKey) -> Probe
    requires stride_in_bounds { (used * stride ≤ length slots.now) × (0 < length heads.now → used ≤ length nexts.now) }
    requires indexed { Indexed (table slots.now used) heads.now nexts.now }
    ensures { Probed (length heads.now) (table slots.now used) key result }
{
    if 0 < heads.len() {
        return probe_key(slots, used, heads, nexts, key);
    }
    match crate::slots::find(slots, used, key) {
        Some(i) => Probe::Hit(i),
        None => Probe::Last(0),
    }
}

// The slot of a key: the lowest used one that has it.
pub fn find(
    slots: &[u64],
    used: usize,
    heads: &[u64],
    nexts: &[u64],
    key: EntryKey,
) -> Option<usize>
    requires stride_in_bounds { (used * stride ≤ length slots.now) × (0 < length heads.now → used ≤ length nexts.now) }
    requires indexed { Indexed (table slots.now used) heads.now nexts.now }
    ensures { result ≡ find (table slots.now used) key }
{
    match seek(slots, used, heads, nexts, key) {
        Probe::Hit(i) => Some(i),
        Probe::Last(_) => None,
    }
}

// The slot that an entry under a key goes to, by what seeking it says: that of the key, or the first that is not used.
pub fn slot_of(found: Probe, used: usize) -> usize
    ensures { result ≡ slot_by used found }
{
    match found {
        Probe::Hit(i) => i,
        Probe::Last(_) => used,
    }
}

// Makes the index of a table, whatever the words held.
pub fn build(slots: &[u64], used: usize, heads: &mut [u64], nexts: &mut [u64])
    requires { (used * stride ≤ length slots.now) × (0 < length heads.old → used ≤ length nexts.old) }
    ensures heads_after { heads.new ≡ heads_of (length heads.old) (table slots.now used) }
    ensures nexts_after { nexts.new ≡ nexts_of (length heads.old) (table slots.now used) nexts.old }
{
    let m = heads.len();
    if m == 0 {
        return;
    }
    heads.fill(0);
    nexts.fill(0);
    for i in (0..used).rev() {
        let h = hash_of(m, key_at(slots, i));
        nexts[i] = heads[h];
        heads[h] = (i + 1) as u64;
    }
}

// Puts slot `used`, in which the key stands, behind the last link of its hash, or first where there is none.
pub fn link(used: usize, heads: &mut [u64], nexts: &mut [u64], key: EntryKey, last: u64)
    requires { (0 < length heads.old) × (used < length nexts.old) × (last ≤ used) }
    ensures heads_after { heads.new ≡ heads_linked heads.old (hash (length heads.old) key) last (used + 1) }
    ensures nexts_after { nexts.new ≡ nexts_linked nexts.old last (used + 1) }
{
    let next = (used + 1) as u64;
    if last == 0 {
        heads[hash_of(heads.len(), key)] = next;
        return;
    }
    nexts[(last - 1) as usize] = next;
}
