// The store of an entry: by way of an index, and with none.
ghost use Rattle.std.specs.Prelude.{[], ◌≤◌, ◌<◌, length};
ghost use Rattle.entry_slots.specs.Slots.{slots_in};
ghost use Rattle.entry_slots.specs.Table.{table};
ghost use Rattle.entry_slots.specs.Index.{Indexed};
ghost use Rattle.entry_slots.specs.Probing.{Probed};
ghost use Rattle.entry_table.specs.Promise.{AddPromise, AddByPromise};

use base::refusal::Refusal;
use entry_slots::links::{Probe, link, seek};
use entry_slots::slots::{STRIDE, put};
use entry_slots::{EntryInfo, EntryKey};

// Stores an entry under its key. A known one is replaced, or left alone where replace is false, which is a fact about the entry and no
// step (`Addition` of specs/); a new one takes the first slot that is not used. Refused, with nothing written: 6 the key is new and no slot is left.
pub fn add(
    slots: &mut [u64],
    used: usize,
    key: EntryKey,
    info: EntryInfo,
    replace: bool,
) -> Result<usize, Refusal>
    requires { used ≤ slots_in slots.old }
    ensures { AddPromise slots used key info replace result }
{
    add_by(slots, used, &mut [], &mut [], key, info, replace)
}

// Stores an entry under its key by way of the index, which it keeps. A known one is replaced, or left alone where replace is false;
// a new one takes the first slot that is not used. Refused, with nothing written: 6 the key is new and no slot is left.
pub fn add_by(
    slots: &mut [u64],
    used: usize,
    heads: &mut [u64],
    nexts: &mut [u64],
    key: EntryKey,
    info: EntryInfo,
    replace: bool,
) -> Result<usize, Refusal>
    requires used_bound { used ≤ slots_in slots.old }
    requires indexed { Indexed (table slots.old used) heads.old nexts.old × (0 < length heads.old → slots_in slots.old ≤ length nexts.old) }
    ensures { AddByPromise slots used heads nexts key info replace result }
{
    let found = seek(slots, used, heads, nexts, key);
    add_found(slots, used, heads, nexts, key, info, replace, found)
}

// The same where the key is sought already.
pub fn add_found(
    slots: &mut [u64],
    used: usize,
    heads: &mut [u64],
    nexts: &mut [u64],
    key: EntryKey,
    info: EntryInfo,
    replace: bool,
    found: Probe,
) -> Result<usize, Refusal>
    requires used_bound { used ≤ slots_in slots.old }
    requires indexed { Indexed (table slots.old used) heads.old nexts.old × (0 < length heads.old → slots_in slots.old ≤ length nexts.old) }
    requires probed { Probed (length heads.old) (table slots.old used) key found }
    ensures { AddByPromise slots used heads nexts key info replace result }
{
    match found {
        Probe::Hit(i) => {
            if replace {
                put(slots, i, key, info);
            }
            Ok(used)
        }
        Probe::Last(last) => {
            if slots.len() / STRIDE <= used {
                return Err(Refusal::TableFull);
            }
            put(slots, used, key, info);
            if heads.len() == 0 {
                return Ok(used + 1);
            }
            link(used, heads, nexts, key, last);
            Ok(used + 1)
        }
    }
}
