// The rules of document 01 as definitions (specs/) and what holds of every list of calls (proofs/). No code of the renderer stands here.
#![tactic(auto)]
