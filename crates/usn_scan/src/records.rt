// The records that the scan lists: one after the other, whether a list has room for them, and their places in it.
ghost use Rattle.std.specs.Prelude.{◌≡◌, ◌/◌, ◌≤◌, length, leb};
ghost use Rattle.std.specs.Iterator.{YieldsFirst, item_count};
ghost use Rattle.base.specs.Lists.{flatten, overwrite, place_words};
ghost use Rattle.usn_scan.specs.Scan.{events_from, record_places, scanned};

use crate::extract::Extract;
use crate::step::{ScanStep, scan_step};
use base::Place;
use usn_record::zeros::skip_zeros;

// The records of an extract from an offset on. A turn of `next` goes on by what it meets, and counts nothing.
#[derive(Drop)]
struct Records<'a> {
    extract: Extract<'a>,
    offset: usize,
}

impl<'a> Iterator for Records<'a> {
    type Item = Place;

    ghost next_gives = { YieldsFirst (λ s. record_places (events_from s.extract.bytes.now s.offset)) };

    ghost remaining = { item_count (λ s. record_places (events_from s.extract.bytes.now s.offset)) };

    #[inline(always)]
    fn next(&mut self) -> Option<Place> {
        loop {
            match scan_step(self.extract, self.offset) {
                ScanStep::Stop => return None,
                ScanStep::Move(next) => self.offset = skip_zeros(self.extract.bytes, next),
                ScanStep::Record(place, next) => {
                    self.offset = next;
                    return Some(place);
                }
                ScanStep::Range(_, next) => self.offset = next,
            }
        }
    }
}

// All records of an extract.
fn all_records<'a>(extract: Extract<'a>) -> Records<'a>
    ensures { (result.extract.bytes.now ≡ extract.entry.bytes.now) × (result.offset ≡ 0) }
{
    Records { extract, offset: 0 }
}

// Whether the records fit a list with room for so many. A record takes 64 bytes of the scan, so where the room is enough for any
// extract of this length they are not counted.
pub(crate) fn has_room(extract: Extract, room: usize) -> bool
    ensures { result ≡ leb (length (scanned extract.entry.bytes.now)) room }
{
    (extract.bytes.len() + 7) / 64 <= room || all_records(extract).count() <= room
}

// Writes the place of each record to a list that has room for them all, and answers how many there are.
pub(crate) fn write_records(extract: Extract, list: &mut [usize]) -> usize
    requires { length (scanned extract.bytes.now) ≤ length list.old / 2 }
    ensures value { result ≡ length (scanned extract.entry.bytes.now) }
    ensures list_after { list.new ≡ overwrite list.old (flatten place_words (scanned extract.entry.bytes.now)) }
{
    let mut i = 0;
    for place in all_records(extract) {
        base::put_pair(list, i, place.offset, place.length);
        i += 2;
    }
    i / 2
}
