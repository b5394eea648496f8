// The bytes of a name that was stored by its place in an image: from the restored entry where it lies in one, else as they are.
ghost use Rattle.std.specs.Prelude.{◌≡◌, true, ◌+◌, ◌≤◌, length};
ghost use Rattle.base.specs.Lists.{overwrite};
ghost use Rattle.mft_sectors.specs.Stored.{in_entry, image_bytes};

use crate::reads::Restored;
use crate::signature::has_signature;
use crate::sound::is_sound;
use base::Place;

// Whether a place of an image lies in one entry, whole in the image, that begins with the signature and has a sound array. Entries have
// so many bytes, and stand at multiples of that.
#[tactic(auto, unfolding(crate::specs::Stored::in_entry))]
pub fn in_entry(image: &[u8], place: Place, size: usize) -> bool
    requires { (1 ≤ size) × (place.offset + place.length ≤ length image.now) }
    ensures { result ≡ in_entry size image.now place }
{
    let start = place.offset / size * size;
    if image.len() - start < size {
        return false;
    }
    let end = start + size;
    if end < place.offset + place.length {
        return false;
    }
    let entry = &image[start..end];
    if !has_signature(entry) {
        return false;
    }
    is_sound(entry)
}

// The bytes of a place that lies so, from the restored entry, at the front of a lent slice, which has room for them.
pub fn put_restored(image: &[u8], place: Place, size: usize, bytes: &mut [u8])
    requires { (1 ≤ size) × (in_entry size image.now place ≡ true) × (place.length ≤ length bytes.old) }
    ensures { bytes.new ≡ overwrite bytes.old (image_bytes size image.now place) }
{
    let start = place.offset / size * size;
    let end = start + size;
    let entry = Restored::of(&image[start..end]);
    let from = place.offset - start;
    for (k, byte) in bytes[..place.length].iter_mut().enumerate() {
        *byte = entry.byte(from + k);
    }
}
