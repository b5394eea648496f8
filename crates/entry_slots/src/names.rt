// Names' places, and whether they lie inside the slices that they name.
ghost use Rattle.std.specs.Prelude.{◌≡◌, ◌*◌, ◌≤◌, length};
ghost use Rattle.entry_slots.specs.Names.{lengths, length_of, inside, all_inside};
ghost use Rattle.entry_slots.specs.Slots.{stride, names_in};

use crate::NamePlace;
use crate::slots::name_at;

// The source of a name that lies in the journal. Any other is the image.
pub const JOURNAL: u64 = 0;

// The length of the slice that a source names.
pub(crate) fn length_of(source: u64, journal_length: usize, image_length: usize) -> usize
    ensures { result ≡ length_of (lengths journal_length image_length) source }
{
    if source == JOURNAL {
        journal_length
    } else {
        image_length
    }
}

// Whether a name's place, as stored, ends inside its slice.
pub fn is_inside(name: NamePlace, journal_length: usize, image_length: usize) -> bool
    ensures { result ≡ inside (lengths journal_length image_length) name }
{
    let end = length_of(name.source, journal_length, image_length) as u64;
    if end < name.length {
        return false;
    }
    name.offset <= end - name.length
}

// Whether the name of every used slot does.
pub fn all_inside(slots: &[u64], used: usize, journal_length: usize, image_length: usize) -> bool
    requires { used * stride ≤ length slots.now }
    ensures { result ≡ all_inside (lengths journal_length image_length) (names_in slots.now used) }
{
    for i in 0..used {
        if !is_inside(name_at(slots, i), journal_length, image_length) {
            return false;
        }
    }
    true
}
