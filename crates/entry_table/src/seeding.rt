// The additions of all entries of a source, whatever it is read from, by way of an index.
ghost use Rattle.std.specs.Prelude.{◌+◌, ◌≤◌, ◌<◌, length};
ghost use Rattle.entry_slots.specs.Names.{lengths};
ghost use Rattle.entry_slots.specs.Slots.{slots_in};
ghost use Rattle.entry_slots.specs.Table.{table, known};
ghost use Rattle.entry_slots.specs.Index.{Indexed};
ghost use Rattle.additions.specs.Sources.{all_of};
ghost use Rattle.additions.specs.Storing.{new_keys, keys_of};
ghost use Rattle.entry_table.specs.Promise.{AddAllPromise, SeedByPromise};

use crate::adding::add_by;
use additions::room::{has_room, names_inside};
use additions::source::Source;
use base::refusal::Refusal;
use entry_slots::links::build;
use entry_slots::slots::STRIDE;

// Stores all entries of a source, in turn, by way of an index, with words that are enough, or with no heads, and with journal and image by their lengths.
// Refused, with nothing written: 9 used is above the slots, 7 the place of some name passes its slice, also of a known entry, 6 the
// different new keys are more than the slots that are left.
pub(crate) fn seed_by<S: Source>(
    journal_length: usize,
    image_length: usize,
    slots: &mut [u64],
    used: usize,
    source: S,
    heads: &mut [u64],
    nexts: &mut [u64],
) -> Result<usize, Refusal>
    requires { 0 < length heads.old → slots_in slots.old ≤ length nexts.old }
    ensures { SeedByPromise (lengths journal_length image_length) slots used (all_of (S.many source) (S.added source)) heads nexts result }
{
    if slots.len() / STRIDE < used {
        return Err(Refusal::BadState);
    }
    if !names_inside(source, journal_length, image_length) {
        return Err(Refusal::NameOutside);
    }
    if !has_room(source, slots, used, slots.len() / STRIDE) {
        return Err(Refusal::TableFull);
    }
    build(slots, used, heads, nexts);
    add_all(slots, used, source, heads, nexts)
}

// Every entry, in turn. The caller has seen to it that there is room, so that no addition is refused.
fn add_all<S: Source>(
    slots: &mut [u64],
    used: usize,
    source: S,
    heads: &mut [u64],
    nexts: &mut [u64],
) -> Result<usize, Refusal>
    requires entries_bound { used + new_keys (known (table slots.old used)) (keys_of (all_of (S.many source) (S.added source))) ≤ slots_in slots.old }
    requires indexed { Indexed (table slots.old used) heads.old nexts.old × (0 < length heads.old → slots_in slots.old ≤ length nexts.old) }
    ensures { AddAllPromise slots used (all_of (S.many source) (S.added source)) heads nexts result }
{
    let mut now_used = used;
    for i in 0..source.count() {
        let key = source.key(i);
        let info = source.info(i);
        let replaces = source.replaces(i);
        now_used = add_by(slots, now_used, heads, nexts, key, info, replaces)?;
    }
    Ok(now_used)
}
