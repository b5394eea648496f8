// An image that can be carved, with the limits that it is carved by.
ghost use Rattle.std.specs.Prelude.{◌≤◌, length};
ghost use Rattle.base.specs.Refusals.{domain};

use crate::Settings;

// The bytes of an image within the domain, so that no offset of a visit is too large, and limits whose entries have a size above 0, so
// that each visit goes forward.
#[derive(Clone, Copy)]
pub struct Image<'a> {
    pub bytes: &'a [u8],
    pub settings: Settings,
    ghost within: { length bytes.now ≤ domain },
    ghost sized: { 1 ≤ settings.size },
}
