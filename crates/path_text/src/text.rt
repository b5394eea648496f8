// The text of a chain's end and of a name: how many bytes it takes, and its bytes.
ghost use Rattle.std.specs.Prelude.{◌≡◌, true, ◌+◌, ◌^◌, ◌≤◌, ◌<◌, length};
ghost use Rattle.std.proofs.lemmas.List.Edits.{sets};
ghost use Rattle.entry_slots.specs.Names.{lengths_of, inside};
ghost use Rattle.path_text.specs.Text.{key_text, end_text, place_text, step_text};

use crate::stored::{image_length, put_image};
use chain::ChainEnd;
use entry_slots::names::JOURNAL;
use entry_slots::{EntryKey, NamePlace};
use utf16::decimal::{decimal_length, put_decimal};
use utf16::name::{name_length, put_name};
use utf16::plain::{put_byte, put_bytes};

// How many bytes a key takes in a marker: few enough for any sum.
fn key_length(key: EntryKey) -> usize
    ensures { (result ≡ length (key_text key)) × (result + 11 < 2 ^ 62) }
{
    decimal_length(key.entry) + 1 + decimal_length(key.sequence) + 1
}

// The entry, a colon, the sequence and a closing bracket.
fn put_key(text: &mut [u8], at: usize, key: EntryKey) -> usize
    requires { at + length (key_text key) ≤ length text.old }
    ensures value { result ≡ at + length (key_text key) }
    ensures text_after { text.new ≡ sets text.old at (key_text key) }
{
    let colon = put_decimal(text, at, key.entry);
    let sequence = put_byte(text, colon, b':');
    let bracket = put_decimal(text, sequence, key.sequence);
    put_byte(text, bracket, b')')
}

// How many bytes a chain's end takes: few enough for any sum.
pub fn end_length(end: ChainEnd) -> usize
    ensures { (result ≡ length (end_text end)) × (result < 2 ^ 62) }
{
    match end {
        ChainEnd::Root => 1,
        ChainEnd::Unknown(key) => 8 + key_length(key),
        ChainEnd::Unresolved(key) => 11 + key_length(key),
    }
}

// A full stop, or a marker.
pub fn put_end(text: &mut [u8], at: usize, end: ChainEnd) -> usize
    requires { at + length (end_text end) ≤ length text.old }
    ensures value { result ≡ at + length (end_text end) }
    ensures text_after { text.new ≡ sets text.old at (end_text end) }
{
    match end {
        ChainEnd::Root => put_byte(text, at, b'.'),
        ChainEnd::Unknown(key) => {
            let to = put_bytes(text, at, b"UNKNOWN(");
            put_key(text, to, key)
        }
        ChainEnd::Unresolved(key) => {
            let to = put_bytes(text, at, b"UNRESOLVED(");
            put_key(text, to, key)
        }
    }
}

// How many bytes the text of the name at a place takes.
pub fn place_length(journal: &[u8], image: &[u8], place: NamePlace) -> usize
    requires { inside (lengths_of journal.now image.now) place ≡ true }
    ensures { result ≡ length (place_text journal.now image.now place) }
{
    let offset = place.offset as usize;
    let size = place.length as usize;
    if place.source == JOURNAL {
        return name_length(journal, offset, size);
    }
    image_length(image, offset, size)
}

// The text of the name at a place.
pub fn put_place(
    journal: &[u8],
    image: &[u8],
    place: NamePlace,
    text: &mut [u8],
    at: usize,
) -> usize
    requires place_value { inside (lengths_of journal.now image.now) place ≡ true }
    requires place_in_bounds { at + length (place_text journal.now image.now place) ≤ length text.old }
    ensures value { result ≡ at + length (place_text journal.now image.now place) }
    ensures text_after { text.new ≡ sets text.old at (place_text journal.now image.now place) }
{
    let offset = place.offset as usize;
    let size = place.length as usize;
    if place.source == JOURNAL {
        return put_name(journal, offset, size, text, at);
    }
    put_image(image, offset, size, text, at)
}

// A backslash and the name at a place.
pub fn put_step(journal: &[u8], image: &[u8], place: NamePlace, text: &mut [u8], at: usize) -> usize
    requires place_value { inside (lengths_of journal.now image.now) place ≡ true }
    requires place_in_bounds { at + length (step_text journal.now image.now place) ≤ length text.old }
    ensures value { result ≡ at + length (step_text journal.now image.now place) }
    ensures text_after { text.new ≡ sets text.old at (step_text journal.now image.now place) }
{
    let to = put_byte(text, at, b'\\');
    put_place(journal, image, place, text, to)
}
