// Carving of USN records, versions 2 and 3, from raw bytes such as unallocated space.
//
// Every function here is proved. The call has no `requires`: any extract and any list get an answer.
#![tactic(auto)]

mod candidates;
mod limits;
mod step;
pub mod words;

ghost use Rattle.usn_carver.specs.Settings.{standard};
ghost use Rattle.usn_carver.specs.Step.{settings_by};
ghost use Rattle.usn_carver.specs.Promise.{CarvePromise};

use crate::candidates::{fill_list, has_room};
use crate::limits::Limits;
use base::DOMAIN;
use base::refusal::Refusal;

// The earliest time of a carved record: the start of 2000, in ticks of 100 nanoseconds since 1601.
const FILETIME_2000: u64 = 125_911_584_000_000_000;
// The latest: 13 hours and 20 minutes into 2030.
const FILETIME_2030: u64 = 135_379_776_000_000_000;

// What a run counted. Every candidate is carved or rejected, for its structure or else for its time.
#[derive(Clone, Copy)]
pub struct CarvingStats {
    pub bytes_scanned: usize,
    pub candidates_examined: u64,
    pub records_carved: usize,
    pub rejected_timestamp: u64,
    pub rejected_structure: u64,
}

// The records found at multiples of 8: of version 2 or 3, whole, with a name right after the fixed part and a time within the
// limits. Their offsets and lengths go as pairs to the front of the list; the words after them are left alone.
// Refused, with nothing written: 1 the extract is above the domain, 5 there are more records than half the list's words.
pub fn carve_usn_records(extract: &[u8], list: &mut [usize]) -> Result<CarvingStats, Refusal>
    ensures { CarvePromise standard extract list result }
{
    let limits = Limits {
        first: FILETIME_2000,
        last: FILETIME_2030,
    };
    carve(extract, list, limits)
}

// Carving with any limits.
fn carve(extract: &[u8], list: &mut [usize], limits: Limits) -> Result<CarvingStats, Refusal>
    ensures { CarvePromise (settings_by limits) extract list result }
{
    if DOMAIN < extract.len() {
        return Err(Refusal::AboveDomain);
    }
    if !has_room(extract, list.len() / 2, limits) {
        return Err(Refusal::ListFull);
    }
    Ok(fill_list(extract, list, limits))
}
