// The walk from the last record to the first: the additions to the first table, by way of an index.
ghost use Rattle.std.specs.Prelude.{◌+◌, ◌≤◌, ◌<◌, length};
ghost use Rattle.entry_slots.specs.Slots.{slots_in};
ghost use Rattle.entry_slots.specs.Table.{table, known};
ghost use Rattle.entry_slots.specs.Index.{Indexed};
ghost use Rattle.additions.specs.Storing.{new_keys, keys_of, adding};
ghost use Rattle.additions.specs.Walking.{walked_back};
ghost use Rattle.entry_table.specs.Promise.{StoreByPromise};

use additions::entries::{entry_from_last, replaces_backward};
use base::refusal::Refusal;
use entry_table::adding::add_by;
use read_ahead::ahead_backward;

// Every record, from the last to the first, into the table. The caller has seen to it that there is room, so that no addition
// is refused.
pub fn add_backward(
    journal: &[u8],
    records: &[usize],
    slots: &mut [u64],
    used: usize,
    heads: &mut [u64],
    nexts: &mut [u64],
) -> Result<usize, Refusal>
    requires records_bound { used + new_keys (known (table slots.old used)) (keys_of (walked_back journal.now records.now)) ≤ slots_in slots.old }
    requires indexed { Indexed (table slots.old used) heads.old nexts.old × (0 < length heads.old → slots_in slots.old ≤ length nexts.old) }
    ensures { StoreByPromise slots heads nexts (adding (table slots.old used) (walked_back journal.now records.now)) result }
{
    let mut now_used = used;
    let mut read: usize = 0;
    for i in 0..records.len() / 2 {
        read = ahead_backward(journal, records, i, read, slots, heads, nexts);
        let entry = entry_from_last(journal, records, i);
        let replace = replaces_backward(entry);
        now_used = add_by(
            slots, now_used, heads, nexts, entry.key, entry.info, replace,
        )?;
    }
    Ok(now_used)
}
