// A step of a rewind with text: the next record goes into the forward table, and its path behind the first bytes of a text.
//
// Every function here is proved. They are helpers of our own crates: they ask for tests that have passed and for an index that is
// the table's, and keep both. Heads of length 0 are no index. The way is lent for the slots that a path goes by; what it holds before
// is of no account.
#![tactic(auto)]

ghost use Rattle.std.specs.Prelude.{◌≤◌, ◌<◌};
ghost use Rattle.entry_slots.specs.Slots.{slots_in};
ghost use Rattle.entry_slots.specs.Table.{table};
ghost use Rattle.rewind_steps.specs.Promise.{StepAsks, TellPromise, MakePromise};

use additions::entries::{RecordEntry, replaces_forward};
use base::refusal::Refusal;
use chain::ResolvedPath;
use chain::way::{climb, resolved};
use entry_slots::links::{build, seek, slot_of};
use entry_slots::slots::{STRIDE, info_at, key_at, put};
use entry_slots::{EntryInfo, EntryKey};
use entry_table::adding::add_found;
use path::ways::put_behind;

// Where a rewind stands: how many slots of the forward table are used, and where the text so far ends.
#[derive(Clone, Copy)]
pub struct Stand {
    pub used: usize,
    pub at: usize,
}

// A step that is made: where its text ends and how many slots are used then, with the names and the end of its parent's path, whose slots
// the way has.
#[derive(Clone, Copy)]
pub struct Told {
    pub at: usize,
    pub used: usize,
    pub path: ResolvedPath,
}

// What a table held before a record went into it: what stood in the record's slot, and how many slots were used.
#[derive(Clone, Copy)]
pub(crate) struct Held {
    slot: usize,
    key: EntryKey,
    info: EntryInfo,
    used: usize,
}

// A record that is in the table: what it says, and what the table held before.
#[derive(Clone, Copy)]
pub(crate) struct Entered {
    info: EntryInfo,
    held: Held,
}

// The text of a record that the table has, by its parent and its own name. Where there is no room for it, what stood in the
// record's slot is put back, and as many slots are used as before.
fn tell(
    journal: &[u8],
    image: &[u8],
    entered: Entered,
    stand: Stand,
    forward: &mut [u64],
    heads: &mut [u64],
    nexts: &mut [u64],
    way: &mut [usize],
    text: &mut [u8],
) -> Result<Told, Refusal>
    requires step_asks { StepAsks journal.now image.now (table forward.old stand.used) heads.old nexts.old entered.info.name way.old stand.at text.old }
    requires slot_bound { (entered.held.slot < slots_in forward.old) × (entered.held.used ≤ slots_in forward.old) }
    ensures { TellPromise journal image forward heads nexts way text stand.at stand.used entered result }
{
    let info = entered.info;
    let held = entered.held;
    let up = climb(forward, stand.used, heads, nexts, info.parent, way);
    match put_behind(journal, image, forward, way, up, info.name, text, stand.at) {
        Some(at) => Ok(Told {
            at,
            used: stand.used,
            path: resolved(up),
        }),
        None => {
            put(forward, held.slot, held.key, held.info);
            build(forward, held.used, heads, nexts);
            Err(Refusal::TextFull)
        }
    }
}

// A step with the record that is next.
pub fn make_step(
    journal: &[u8],
    image: &[u8],
    entry: RecordEntry,
    stand: Stand,
    forward: &mut [u64],
    heads: &mut [u64],
    nexts: &mut [u64],
    way: &mut [usize],
    text: &mut [u8],
) -> Result<Told, Refusal>
    requires { StepAsks journal.now image.now (table forward.old stand.used) heads.old nexts.old entry.info.name way.old stand.at text.old }
    ensures { MakePromise journal image forward heads nexts way text stand.at entry stand.used result }
{
    let used = stand.used;
    let found = seek(forward, used, heads, nexts, entry.key);
    let slot = slot_of(found, used);
    if forward.len() / STRIDE <= slot {
        return Err(Refusal::TableFull);
    }
    let held = Held {
        slot,
        key: key_at(forward, slot),
        info: info_at(forward, slot),
        used,
    };
    let used = add_found(
        forward,
        used,
        heads,
        nexts,
        entry.key,
        entry.info,
        replaces_forward(entry),
        found,
    )?;
    let entered = Entered {
        info: entry.info,
        held,
    };
    let stand = Stand { used, at: stand.at };
    tell(
        journal, image, entered, stand, forward, heads, nexts, way, text,
    )
}
