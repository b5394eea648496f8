// What the attributes of one MFT entry, with the true ends of its sectors, say of its name: which of them give one, and which name is kept.
//
// Every function here is proved. No function that another crate calls has a `requires`: any bytes, any first offset and any number of
// attributes get an answer.
#![tactic(auto)]

pub mod attributes;
pub mod filename;
