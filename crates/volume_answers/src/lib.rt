// What C functions over tables, images and rewinds give out that is no row of one width: the answer of a rewind's step, as a number, 0 or
// a refusal's, and words at the front of a lent list, and the refusal of a call that is lent too few words.
//
// Every function here is proved: the number and the words are those of the answer, and the words past them stay as they were. The
// writer asks for a list with room for the words. Both are helpers of our own crates and not offered as calls.
#![tactic(auto)]

pub mod domain;
pub mod rewinds;
