// The sectors of an MFT entry. In the last two bytes of each a disk holds a check value; the true bytes stand in the entry's update
// sequence array. Here is whether that array is sound, reads of an entry with the true bytes in place, and the bytes of a name that
// was stored by its place in an image.
//
// Every function here is proved. They are helpers of our own crates.
#![tactic(auto)]

pub mod reads;
pub mod signature;
pub mod sound;
pub mod stored;
