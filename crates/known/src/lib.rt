// The known cases of the readers and tracers, one proved table: specs/Cases.antt lists them, proofs/Known.antt proves each. There is no code
// here.

#![tactic(auto)]
