// The texts that a path is made of: that of a chain's end, and that of a stored name.
//
// An end is the root `.`, `UNKNOWN(e:s)` or `UNRESOLVED(e:s)`. A name is decoded from the journal or the image, by the place that a
// table or a reader has of it; where that lies in an MFT entry of the image, with the true ends of the entry's sectors.
//
// Every function here is proved. The call has no `requires`: any place gets an answer. The lengths of journal and image decide all
// but the text and whether it fits. The writers of `text` are helpers of our own crates, which ask for room.
#![tactic(auto)]

mod stored;
pub mod text;

ghost use Rattle.path_text.specs.Promise.{DecodePromise};

use crate::text::{place_length, put_place};
use base::DOMAIN;
use base::refusal::Refusal;
use entry_slots::NamePlace;
use entry_slots::names::is_inside;

// The text of the name at a place, which comes as the three words that a table or C has of it, at the front of the lent text. An odd last
// byte is dropped.
// Refused, with nothing written: 1 journal or image is above the domain, 7 the place, as it is given, is outside its slice, 8 the
// text is too small.
pub fn decode(
    journal: &[u8],
    image: &[u8],
    source: u64,
    offset: u64,
    size: u64,
    text: &mut [u8],
) -> Result<usize, Refusal>
    ensures { DecodePromise journal image source offset size text result }
{
    if DOMAIN < journal.len() {
        return Err(Refusal::AboveDomain);
    }
    if DOMAIN < image.len() {
        return Err(Refusal::AboveDomain);
    }
    let name = NamePlace {
        source,
        offset,
        length: size,
    };
    if !is_inside(name, journal.len(), image.len()) {
        return Err(Refusal::NameOutside);
    }
    if text.len() < place_length(journal, image, name) {
        return Err(Refusal::TextFull);
    }
    Ok(put_place(journal, image, name, text, 0))
}
