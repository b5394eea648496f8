// Carving of MFT entries from an image, such as a disk's unallocated space: what each entry, with the true ends of its sectors, says
// of its file or folder, with its name as a place in the image.
//
// Every function here is proved. The call has no `requires`: any image and any list get an answer.
#![tactic(auto)]

mod candidates;
mod entry;
mod image;
pub mod rows;
mod step;

ghost use Rattle.std.specs.Prelude.{◌≤◌};
ghost use Rattle.mft_carver.specs.Settings.{standard};
ghost use Rattle.mft_carver.specs.Promise.{CarvePromise};

use crate::candidates::{fill_list, has_room};
use crate::image::Image;
use base::refusal::Refusal;
use base::{DOMAIN, Place};

// The bytes of an MFT entry.
const MFT_ENTRY_SIZE: usize = 1024;
// The least offset of an entry's first attribute.
const FIRST_ATTR_LOW: usize = 48;
// The greatest: 8 bytes and one more are left.
const FIRST_ATTR_HIGH: usize = 1015;
// The most attributes that are walked.
const MAX_ATTR_WALK: usize = 20;

// The words of an entry in a list.
pub const ENTRY_WORDS: usize = 9;

// The limits that carving goes by.
#[derive(Clone, Copy)]
pub struct Settings {
    // The bytes of an entry; entries are looked for so far apart.
    pub size: usize,
    // The least and the greatest offset of an entry's first attribute.
    pub first_low: usize,
    pub first_high: usize,
    // The most attributes that are walked in an entry.
    pub walked: usize,
}

// A carved MFT entry.
#[repr(C)]
#[derive(Clone, Copy)]
pub struct CarvedMftEntry {
    // Where it stands in the image.
    pub offset: usize,
    // Its number in the MFT, which entries have from NTFS 3.1 on, and its sequence.
    pub entry_number: u64,
    pub sequence_number: u16,
    // Where the units of its best name lie in the image.
    pub filename: Place,
    // The entry and sequence of the folder that the name stands in.
    pub parent_entry: u64,
    pub parent_sequence: u16,
    pub is_directory: bool,
    pub is_in_use: bool,
}

// What a run counted. Every candidate is carved or rejected.
#[derive(Clone, Copy)]
pub struct MftCarvingStats {
    pub bytes_scanned: usize,
    pub candidates_examined: u64,
    pub entries_carved: usize,
    pub rejected: u64,
}

// The entries found at each 1024th byte that have the signature, a good header, a sound update sequence array and a name. The ends of
// the sectors are restored first: parent and name are those of the restored entry. Nine words each go to the front of the list: offset,
// entry number, sequence, the name's offset and its length in bytes, the parent's entry and sequence, and 1 or 0 for a directory and for
// in use. The words after them are left alone.
// Refused, with nothing written: 1 the image is above the domain, 5 there are more entries than the list has room for.
pub fn carve_mft_entries(image: &[u8], list: &mut [u64]) -> Result<MftCarvingStats, Refusal>
    ensures { CarvePromise standard image list result }
{
    let standard = Settings {
        size: MFT_ENTRY_SIZE,
        first_low: FIRST_ATTR_LOW,
        first_high: FIRST_ATTR_HIGH,
        walked: MAX_ATTR_WALK,
    };
    carve(image, list, standard)
}

// Carving with any limits, of entries of any size above 0.
#[tactic(auto, unfolding(crate::specs::Carve::carving))]
fn carve(image: &[u8], list: &mut [u64], settings: Settings) -> Result<MftCarvingStats, Refusal>
    requires { 1 ≤ settings.size }
    ensures { CarvePromise settings image list result }
{
    if DOMAIN < image.len() {
        return Err(Refusal::AboveDomain);
    }
    let within = Image {
        bytes: image,
        settings,
    };
    if !has_room(within, list.len() / ENTRY_WORDS) {
        return Err(Refusal::ListFull);
    }
    Ok(fill_list(within, list))
}
