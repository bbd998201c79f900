// The sample rates that are accepted (specs/Rates.antt); the low-pass's angle at each of them, and five terms of the series of its cosine and sine, in whole numbers
// (specs/Series.antt); and the one test that is computed over all of them, that these terms suffice (specs/Suffice.antt). No code stands here, so that a change of code leaves the
// test alone.
#![tactic(auto)]
