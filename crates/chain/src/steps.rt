// The way up from a key: its steps.
ghost use Rattle.std.specs.Prelude.{◌≡◌, ◌*◌, ◌≤◌, ◌<◌, length};
ghost use Rattle.entry_slots.specs.Slots.{stride};
ghost use Rattle.entry_slots.specs.Table.{table};
ghost use Rattle.entry_slots.specs.Index.{Indexed};
ghost use Rattle.chain.specs.Chain.{is_root, way_of};

use crate::ChainEnd;
use entry_slots::EntryKey;
use entry_slots::links::find;

// The entry of the root folder, of any sequence.
const ROOT_ENTRY: u64 = 5;

// The way up from a key: it ends here, or goes on from the slot that the key stands in. Neither is an error.
#[derive(Clone, Copy)]
pub enum Way {
    End(ChainEnd),
    Slot(usize),
}

// Whether a key is the root.
pub(crate) fn is_root(key: EntryKey) -> bool
    ensures { result ≡ is_root key }
{
    key.entry == ROOT_ENTRY
}

// A step with so many levels left, by way of an index, or of none where the heads have length 0. The depth is tested first, then the
// root, then the table.
pub fn step(
    slots: &[u64],
    used: usize,
    heads: &[u64],
    nexts: &[u64],
    key: EntryKey,
    levels: usize,
) -> Way
    requires stride_in_bounds { (used * stride ≤ length slots.now) × (0 < length heads.now → used ≤ length nexts.now) }
    requires indexed { Indexed (table slots.now used) heads.now nexts.now }
    ensures { result ≡ way_of (table slots.now used) levels key }
{
    if levels == 0 {
        return Way::End(ChainEnd::Unresolved(key));
    }
    if is_root(key) {
        return Way::End(ChainEnd::Root);
    }
    match find(slots, used, heads, nexts, key) {
        Some(i) => Way::Slot(i),
        None => Way::End(ChainEnd::Unknown(key)),
    }
}
