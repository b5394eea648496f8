// The start of a rewind by way of an index of the first table.
ghost use Rattle.std.specs.Prelude.{◌≤◌, ◌<◌, length};
ghost use Rattle.entry_slots.specs.Slots.{slots_in};
ghost use Rattle.rewind.specs.Promise.{BeginPromise};

use crate::Rewind;
use additions::room::records_fit;
use base::put;
use base::refusal::Refusal;
use entry_slots::links::build;
use entry_slots::slots::STRIDE;
use rewind_records::backward::add_backward;
use rewind_records::turn::check;

// What `rewind_start` does with words for an index that are enough, or with no heads. The index is built after the tests, and kept
// with every addition.
pub(crate) fn begin(
    journal: &[u8],
    image: &[u8],
    records: &[usize],
    slots: &mut [u64],
    used: usize,
    forward: &mut [u64],
    heads: &mut [u64],
    nexts: &mut [u64],
) -> Result<Rewind, Refusal>
    requires { 0 < length heads.old → slots_in slots.old ≤ length nexts.old }
    ensures { BeginPromise journal image records slots used forward heads nexts result }
{
    check(journal, image.len(), records, slots, used)?;
    if !records_fit(journal, records, slots, used, slots.len() / STRIDE) {
        return Err(Refusal::TableFull);
    }
    if !records_fit(journal, records, slots, used, forward.len() / STRIDE) {
        return Err(Refusal::TableFull);
    }
    build(slots, used, heads, nexts);
    let stored = add_backward(journal, records, slots, used, heads, nexts)?;
    put(forward, 0, &slots[..stored * STRIDE]);
    Ok(Rewind {
        used: stored,
        position: 0,
    })
}
