// The recorded answers of the Rust original: the cases of a recording, and lines with numbers, a record's fields or a refusal.
//
// Every function here is proved safe. They are helpers of the program that replays a recording.
#![tactic(auto)]

pub mod cases;
pub mod lines;
