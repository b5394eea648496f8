// What a line of a listing is made of: the numbers of a record as text, and the bytes of a path as they are shown.
//
// Every function here is proved, with the bytes that it writes.
#![tactic(auto)]

pub mod fields;
pub mod shown;
