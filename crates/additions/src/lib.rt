// What is added to the lookup table: what the image carver's entries and a journal's listed records say of their keys, and whether
// the table has room for all of them.
//
// Every function here is proved. They are helpers of our own crates.
#![tactic(auto)]

pub mod carved;
pub mod entries;
pub mod room;
pub mod source;
