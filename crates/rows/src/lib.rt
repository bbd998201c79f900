// The definitions run: lists of calls, and what the definitions alone answer and give out for each (specs/), proved by computation (proofs/).
#![tactic(auto)]
