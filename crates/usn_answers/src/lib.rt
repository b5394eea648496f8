// What the calls on a window over a journal answer, put into words, and a window taken out of words.
//
// An answer goes out as a number, 0 or a refusal's, and as words in front of a lent list; those past them stay as they were, and
// a refusal writes none.
//
// Every function here is proved. The public ones are helpers of our own crates, and ask for lists that are long enough.
#![tactic(auto)]

pub mod window;
