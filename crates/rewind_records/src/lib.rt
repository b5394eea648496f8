// What comes before the steps of a rewind: the tests before every call, the record that is next, and the walk from the last record to
// the first.
//
// Every function here is proved. They are helpers of our own crates.
#![tactic(auto)]

pub mod backward;
pub mod turn;
