// The rules' interface filled with the real timed state, metadata and state block; demand 3 for every list of calls (proofs/Demand3); document 01's cases marked P (specs/Marked).
// There is no code.
#![tactic(auto)]
