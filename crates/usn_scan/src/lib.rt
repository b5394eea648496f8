// The scan of a change journal extract for its records.
//
// Every function here is proved. The call has no `requires`: any extract and any list get an answer.
#![tactic(auto)]

mod extract;
mod records;
mod step;

ghost use Rattle.usn_scan.specs.Promise.{ScanPromise};

use crate::extract::Extract;
use crate::records::{has_room, write_records};
use base::DOMAIN;
use base::refusal::Refusal;

// Lists the version 2 and 3 records of an extract, in order: for each its offset and its length, two words of the list, from the
// list's front on, and answers how many. Words past the results stay as they were, and all do where the call is refused.
// Refused: 1 the extract is above the domain, 5 it has more records than the list takes, which is half its length.
pub fn parse_usn_journal(extract: &[u8], list: &mut [usize]) -> Result<usize, Refusal>
    ensures { ScanPromise extract list result }
{
    if DOMAIN < extract.len() {
        return Err(Refusal::AboveDomain);
    }
    let within = Extract { bytes: extract };
    if !has_room(within, list.len() / 2) {
        return Err(Refusal::ListFull);
    }
    Ok(write_records(within, list))
}
