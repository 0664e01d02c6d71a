// The functions of the C interface as things that a statement can speak of: each ends, and answers what the calls of
// document 01 answer (specs/Functions.antt). There is no code here.
#![tactic(auto)]
