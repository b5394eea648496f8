// One entry of an image: its header, its update sequence array and its name.
ghost use Rattle.std.specs.Prelude.{◌≡◌, ◌+◌, ◌≤◌, length};
ghost use Rattle.base.specs.Refusals.{domain};
ghost use Rattle.mft_carver.specs.Entry.{judged};
ghost use Rattle.mft_carver.specs.Step.{event_of};

use crate::{CarvedMftEntry, Settings};
use base::Place;
use mft_attributes::attributes::best_filename;
use mft_sectors::reads::Restored;
use mft_sectors::sound::is_sound;
use usn_record::bytes::{le_u16, le_u32};

// The entry that is carved of the candidate at an offset of an image; one that is rejected gives none. Inlined into the loops: called, its
// answer's room is cleared at every block of an image, and one where no entry begins takes twice the time.
#[inline(always)]
#[tactic(auto, unfolding(crate::specs::Entry::judged))]
pub(crate) fn try_carve_entry(
    entry: &[u8],
    offset: usize,
    settings: Settings,
) -> Option<CarvedMftEntry>
    requires { offset + length entry.now ≤ domain }
    ensures { event_of offset result ≡ judged settings offset entry.now }
{
    let sequence = le_u16(entry, 16);
    if sequence == 0 {
        return None;
    }
    let first = le_u16(entry, 20) as usize;
    if first < settings.first_low {
        return None;
    }
    if settings.first_high < first {
        return None;
    }
    if !is_sound(entry) {
        return None;
    }
    let name = best_filename(&Restored::of(entry), first, settings.walked)?;
    let flags = le_u16(entry, 22);
    Some(CarvedMftEntry {
        offset,
        entry_number: le_u32(entry, 44) as u64,
        sequence_number: sequence,
        filename: Place {
            offset: offset + name.place.offset,
            length: name.place.length,
        },
        parent_entry: name.parent.entry,
        parent_sequence: name.parent.sequence,
        is_directory: flags / 2 % 2 == 1,
        is_in_use: flags % 2 == 1,
    })
}
