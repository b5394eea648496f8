// Names decide nothing but text: two runs whose journals and images differ in names alone share every record, table, chain, answer and
// refusal. specs/Demand.antt has the claim, specs/Calls.antt what a list of calls gives, and specs/Promised.antt that it is what the calls'
// contracts say. There is no code here.

#![tactic(auto)]
