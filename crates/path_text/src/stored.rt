// The text of a name in the image, by its place there: of the restored entry where it lies in one, else of the bytes as they are.
ghost use Rattle.std.specs.Prelude.{◌≡◌, true, ◌+◌, ◌≤◌, length};
ghost use Rattle.std.proofs.lemmas.List.Edits.{sets};
ghost use Rattle.mft_sectors.specs.Stored.{in_entry};
ghost use Rattle.path_text.specs.Text.{entry_size, image_text};
ghost use Rattle.path_text.specs.Restoring.{Restores};

use base::Place;
use mft_sectors::sound::{BODY, SECTOR};
use mft_sectors::stored::{in_entry, put_restored};
use utf16::name::{name_length, put_name};

// The bytes of an MFT entry.
const ENTRY_SIZE: usize = 1024;

// How many bytes the text takes.
pub(crate) fn image_length(image: &[u8], offset: usize, size: usize) -> usize
    requires { offset + size ≤ length image.now }
    ensures { result ≡ length (image_text image.now offset size) }
{
    let place = Place {
        offset,
        length: size,
    };
    if is_restored(image, place) {
        return restored_length(image, place);
    }
    name_length(image, offset, size)
}

// The text itself, into one that has room for it.
pub(crate) fn put_image(
    image: &[u8],
    offset: usize,
    size: usize,
    text: &mut [u8],
    at: usize,
) -> usize
    requires size_in_bounds { offset + size ≤ length image.now }
    requires size_in_bounds_2 { at + length (image_text image.now offset size) ≤ length text.old }
    ensures value { result ≡ at + length (image_text image.now offset size) }
    ensures text_after { text.new ≡ sets text.old at (image_text image.now offset size) }
{
    let place = Place {
        offset,
        length: size,
    };
    if is_restored(image, place) {
        return put_from_entry(image, place, text, at);
    }
    put_name(image, offset, size, text, at)
}

// Whether a name is read from a restored entry. One that meets no sector's end is the same there, and nothing else is tested then.
fn is_restored(image: &[u8], place: Place) -> bool
    requires { place.offset + place.length ≤ length image.now }
    ensures { Restores image.now place result }
{
    if place.offset % SECTOR + place.length <= BODY {
        return false;
    }
    in_entry(image, place, ENTRY_SIZE)
}

// Length and text for a place in an entry: its bytes are copied as restored. These stand apart, so that most names need no room for a copy.
fn restored_length(image: &[u8], place: Place) -> usize
    requires { in_entry entry_size image.now place ≡ true }
    ensures { result ≡ length (image_text image.now place.offset place.length) }
{
    let mut bytes = entry_room();
    put_restored(image, place, ENTRY_SIZE, &mut bytes);
    name_length(&bytes, 0, place.length)
}

fn put_from_entry(image: &[u8], place: Place, text: &mut [u8], at: usize) -> usize
    requires place_value { in_entry entry_size image.now place ≡ true }
    requires length_in_bounds { at + length (image_text image.now place.offset place.length) ≤ length text.old }
    ensures value { result ≡ at + length (image_text image.now place.offset place.length) }
    ensures text_after { text.new ≡ sets text.old at (image_text image.now place.offset place.length) }
{
    let mut bytes = entry_room();
    put_restored(image, place, ENTRY_SIZE, &mut bytes);
    put_name(&bytes, 0, place.length, text, at)
}

// Room for the bytes of an entry.
fn entry_room() -> [u8; ENTRY_SIZE]
    ensures { entry_size ≡ length result }
{
    [0; ENTRY_SIZE]
}
